// Every refusal with its number and layer, and what is printed of a fault.
use super::*;
use std::test::Fail;

#[test]
fn each_refusal_has_its_number_and_layer(rt: HostRuntime) {
    let rows = [
        (Refusal::TextLength, 1, Layer::Words),
        (Refusal::UnknownToken, 2, Layer::Words),
        (Refusal::Syntax, 3, Layer::Grammar),
        (Refusal::RepeatedLetter, 4, Layer::Limits),
        (Refusal::NumberRange, 5, Layer::Limits),
        (Refusal::TooManyAtoms, 6, Layer::Limits),
        (Refusal::TooManyStates, 7, Layer::Limits),
        (Refusal::QuestionTooLarge, 8, Layer::Load),
        (Refusal::TagCount, 9, Layer::Load),
        (Refusal::LengthMismatch, 10, Layer::Load),
        (Refusal::UnknownSymbol, 11, Layer::Load),
        (Refusal::NoSuchPlace, 12, Layer::Load),
        (Refusal::SamePlace, 13, Layer::Load),
        (Refusal::UnknownState, 14, Layer::Load),
    ];
    for (refusal, number, layer) in rows {
        assert_eq!(rt; u8::from(refusal), number);
        assert_eq!(rt; refusal.layer(), layer);
    }
}

#[test]
fn a_failed_check_is_the_fault(rt: HostRuntime) {
    assert_eq!(rt; Refusal::SamePlace.unless(true, 3), Ok(()));
    assert_eq!(rt;
        Refusal::SamePlace.unless(false, 3),
        Err(Refusal::SamePlace.at(3))
    );
}

#[test]
fn a_fault_prints_number_place_layer_and_sentence(rt: HostRuntime) -> Result<(), Fail> {
    let heap = rt.alloc();
    let length = format!(in heap; "{}", Refusal::LengthMismatch.at(0))?;
    assert_eq!(rt;
        length.as_str(),
        "refused 10 at 0 load: this call was given a list of the wrong length"
    );
    let far = format!(in heap; "{}", Refusal::Syntax.at(usize::MAX))?;
    assert_eq!(rt;
        far.as_str(),
        "refused 3 at 18446744073709551615 grammar: here the text stops being a question, or ends too early"
    );
    Ok(())
}
