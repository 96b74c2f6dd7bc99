// What tests work with.

use crate::test_view::{TestAt, TestStructure, TestVariable};
use kl1_match_guard::Pair;
use kl1_text::NameValue;
use std::alloc::Global;

/// Lists that tests empty before they use them.
#[derive(Drop)]
pub struct TestScratch<N: NameValue> {
    pub(crate) guard: kl1_match_guard::Scratch<TestAt<N>, TestStructure>,
    pub(crate) waits: Vec<TestVariable>,
    pub(crate) rest: Vec<Pair<TestAt<N>>>,
}

impl<N: NameValue> TestScratch<N> {
    /// Lists that hold nothing.
    pub(crate) fn new(alloc: Global) -> Self {
        TestScratch {
            guard: kl1_match_guard::Scratch::new(alloc),
            waits: Vec::new(alloc),
            rest: Vec::new(alloc),
        }
    }
}
