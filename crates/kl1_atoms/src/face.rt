// What an account's seat knows of the shared table, for proofs alone.

use crate::known::Known;
use kl1_text::AtomText;
use std::collections::LinkedList;

/// A text that was seen: the bucket, the entry that it points to, and the entry's text. No value of it is made.
pub struct Heard {
    pub bucket: u64,
    pub entry: u64,
    pub text: AtomText,
}

/// How many entries a table has, how many of them each account has, and how many accounts there are.
#[derive(Clone, Copy)]
pub struct Size {
    pub entries: u64,
    pub room: u64,
    pub accounts: u64,
}

/// What one account knows: how many entries the table has, the first of its own, how many these are, how many of them it has used,
/// the names that it knows, what it has seen on the way, and the words that it has drafted. No value of it is made.
pub struct Face {
    pub entries: u64,
    pub first: u64,
    pub room: u64,
    pub used: u64,
    pub knows: LinkedList<Known>,
    pub heard: LinkedList<Heard>,
    pub draft: LinkedList<u64>,
}

/// What a seat knows: a face for each account that it speaks for. No value of it is made.
pub struct View {
    pub faces: LinkedList<Face>,
}
