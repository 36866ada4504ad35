// Population protocols with advice, after Angluin, Aspnes, Diamadi, Fischer and Peralta (2006): what the tags of a load hold, what a meeting
// of two of them does, and which two should meet next. The crate has the words and the theorems; `question` has the interface.
#![tactic(auto)]

// Which two tags of a load should meet next.
#[derive(Clone, Copy, PartialEq, Eq, Debug)]
pub enum Advice {
    // The tag at the first place meets, as the first, the one at the second.
    Meet(usize, usize),
    // Nobody has to meet. In a load that started and then only met, every answer is now the truth, and no meeting changes one.
    Settled,
    // No advice: there are no words, the unit is not allowed, the question has no state, or the tags hold what no started load comes to.
    Lost,
}

// What a tag of a threshold or a remainder holds.
#[derive(Clone, Copy, PartialEq, Eq, Debug)]
pub struct Fields<V> {
    // Whether it leads: two tags join their values where either leads.
    pub lead: bool,
    // Its answer.
    pub bit: bool,
    // Its part of the sum.
    pub value: V,
}
