// Tests of loads and of settling, over questions of every kind and layer. It holds nothing else.
#![tactic(auto)]

#[cfg(test)]
mod tests;
