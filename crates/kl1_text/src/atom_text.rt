// A name as a value.

ghost use Rattle.std.specs.Prelude.{◌≡◌, ℕ, ◌<◌, ◌≤◌, List, [], IsTrue, IfSome, IsNone, IfOk, is_some, length, bytes_eq, ◌↔◌};
ghost use Rattle.std.specs.Cmp.{partial_equiv_from_equiv};
ghost use Rattle.std.specs.Cmp.Lexicographic.{nat_list_eq_equiv};
ghost use Rattle.std.specs.Hash as fed;
ghost use Rattle.std.proofs.Common.{ap};
ghost use Rattle.std.proofs.lemmas.Slice.Eq.{bytes_eq-Decides};
ghost use Rattle.kl1_model.specs.Text.{is_text, text_of};
ghost use Rattle.kl1_model.specs.Name.{name_text, atom_text};
ghost use Rattle.kl1_model.specs.declared.built_in.BuiltIn.{BuiltIn};
ghost use Rattle.kl1_model.specs.declared.limits.TheConstants.{MOST_NAME_BYTES};
ghost use Rattle.kl1_text.specs.BuiltIns.{built_in_of};
ghost use Rattle.kl1_text.specs.Words.{name_words, words_of, bytes_of, bytes_in, words_to_end, HoldsName};

use crate::built_ins::find_built_in;
use crate::literals::bytes_of as literal;
use crate::name_value::NameValue;
use crate::packing::{FULL_WORD, WORDS, is_text, words_of};
use crate::printing::{is_bare, quoted};
use crate::short_bytes::ShortBytes;
use kl1_model::BuiltIn;
use std::alloc::{AllocError, Global};
use std::hash::{Hash, Hasher};
use std::marker::Model;

/// A name: at most 127 bytes of printable ASCII, the blank among them. The empty name is one.
#[derive(Clone, Copy)]
pub struct AtomText {
    words: [u64; WORDS],
}

impl Model for AtomText {
    ghost use Rattle.std.specs.Prelude.{◌≡◌, ℕ, List, IsTrue};
    ghost use Rattle.std.proofs.Common.{ap, sym};
    ghost use Rattle.kl1_model.specs.Text.{is_text};
    ghost use Rattle.kl1_text.specs.Words.{name_words, words_of, bytes_of};

    ghost Value = { List ℕ };

    ghost view = { λ a. bytes_of a.words };

    ghost invariant = { λ a. (a.words ≡ words_of name_words (bytes_of a.words)) × IsTrue (is_text (bytes_of a.words)) };

    ghost inverse = { λ t. record { words = words_of name_words t } };

    ghost inverse_ok = { λ a h. ap (λ w. record { words = w }) (sym h.0) };
}

impl AtomText {
    /// The name of these bytes.
    pub fn of(bytes: &[u8]) -> Self
        requires { IsTrue (is_text bytes.now) }
        ensures { result ≡ bytes.now }
    {
        AtomText {
            words: words_of(bytes),
        }
    }

    /// The name of these bytes, if they are one.
    pub fn read(bytes: &[u8]) -> Option<Self>
        ensures value { IfSome result (λ name. name ≡ bytes.now) }
        ensures variant { is_some result ≡ is_text bytes.now }
    {
        if !is_text(bytes) {
            return None;
        }
        Some(AtomText::of(bytes))
    }

    /// Whether two names are one.
    pub fn is(&self, other: &AtomText) -> bool
        ensures iff { IsTrue result ↔ (self.now ≡ other.now) }
        ensures value { result ≡ bytes_eq self.now other.now }
    {
        let mine = &self.words;
        let others = &other.words;
        for word in 0..WORDS {
            if mine[word] != others[word] {
                return false;
            }
            if mine[word] < FULL_WORD {
                return true;
            }
        }
        true
    }

    /// The name of a built-in.
    #[tactic(auto, using(crate::proofs::BuiltInLaws::built_ins_are_texts))]
    pub fn of_built_in(built_in: BuiltIn) -> Self
        ensures { result ≡ text_of built_in }
    {
        AtomText::of(literal(built_in))
    }

    /// The bytes of the name.
    pub fn unpacked(&self) -> ShortBytes
        ensures value { result ≡ self.now }
        ensures short { length result ≤ MOST_NAME_BYTES }
        ensures text { IsTrue (is_text result) }
    {
        let mut out = ShortBytes::new();
        self.unpack(&mut out);
        out
    }

    /// Puts the bytes of the name into a row that has none.
    pub(crate) fn unpack(&self, out: &mut ShortBytes)
        requires { out.old ≡ [] }
        ensures value { out.new ≡ self.now }
        ensures short { length out.new ≤ MOST_NAME_BYTES }
        ensures text { IsTrue (is_text out.new) }
    {
        for word in self.words() {
            out.put_number(*word, 8);
        }
    }

    /// The words that hold the name, up to the one in which it ends: the first whose highest byte is zero.
    pub fn words(&self) -> &[u64]
        ensures value { result.now ≡ words_to_end self.now }
        ensures few { length result.now ≤ name_words }
        ensures name { IsTrue (is_text self.now) }
    {
        let words = &self.words;
        for count in 1..WORDS {
            if words[count - 1] < FULL_WORD {
                return &words[..count];
            }
        }
        words
    }

    /// The name that words hold.
    pub fn of_words(words: [u64; WORDS]) -> Self
        requires held { words ≡ words_of name_words (bytes_of words) }
        requires name { IsTrue (is_text (bytes_of words)) }
        ensures { result ≡ bytes_of words }
    {
        AtomText { words }
    }

    /// The word that holds the name, if the name has at most eight bytes.
    pub fn one_word(&self) -> Option<u64>
        ensures some { IfSome result (λ word. HoldsName word × (bytes_in 8 word ≡ self.now)) }
        ensures none { IsNone result → 8 < length self.now }
    {
        let words = &self.words;
        if words[1] == 0 { Some(words[0]) } else { None }
    }

    /// The name of at most eight bytes that a word holds.
    pub fn of_word(word: u64) -> Self
        requires { HoldsName word }
        ensures { result ≡ bytes_in 8 word }
    {
        let mut words = [0u64; WORDS];
        words[0] = word;
        AtomText::of_words(words)
    }

    /// Tells a caller's proof that these bytes are a name. It does nothing.
    pub fn shows_text(&self)
        ensures { IsTrue (is_text self.now) }
    {
        let _words = &self.words;
    }

    /// The built-in name that this is, if it is one.
    pub fn built_in(&self) -> Option<BuiltIn>
        ensures { result ≡ built_in_of self.now }
    {
        let mut bytes = ShortBytes::new();
        self.unpack(&mut bytes);
        find_built_in(bytes.as_slice())
    }

    /// How many bytes the name has.
    pub fn len(&self) -> usize
        ensures value { result ≡ length self.now }
        ensures short { result ≤ MOST_NAME_BYTES }
    {
        let mut bytes = ShortBytes::new();
        self.unpack(&mut bytes);
        bytes.len()
    }

    /// The bytes of the name, in a vector of their own.
    pub fn bytes_of(&self, alloc: Global) -> Result<Vec<u8>, AllocError>
        ensures { IfOk result (λ bytes. bytes.items ≡ self.now) }
    {
        Vec::from_slice(alloc, self.unpacked().as_slice())
    }

    /// The name as it is printed if it names a structure.
    pub fn printed_as_name(&self) -> ShortBytes
        ensures { result ≡ name_text self.now }
    {
        let bytes = self.unpacked();
        if is_bare(bytes.as_slice()) {
            bytes
        } else {
            quoted(bytes.as_slice())
        }
    }

    /// The name as it is printed if it stands alone.
    pub fn printed_as_atom(&self) -> ShortBytes
        ensures { result ≡ atom_text self.now }
    {
        if self.is(&AtomText::of(b"[]")) {
            self.unpacked()
        } else {
            self.printed_as_name()
        }
    }
}

impl NameValue for AtomText {
    ghost built = { text_of };

    fn of(built_in: BuiltIn) -> Self {
        AtomText::of_built_in(built_in)
    }

    fn same(&self, other: &Self) -> bool {
        self.is(other)
    }
}

impl PartialEq for AtomText {
    ghost eq = { bytes_eq };

    ghost laws = { partial_equiv_from_equiv nat_list_eq_equiv };

    fn eq(&self, other: &AtomText) -> bool {
        AtomText::is(self, other)
    }
}

impl Eq for AtomText {
    ghost laws = { nat_list_eq_equiv };
}

impl Hash for AtomText {
    ghost hash_input = { λ a. fed.slice fed.u64 (words_to_end a) };

    ghost respects_eq = { λ a b e. ap (λ t. fed.slice fed.u64 (words_to_end t)) ((bytes_eq-Decides a b).0 e) };

    fn hash<H: Hasher>(&self, state: &mut H) {
        self.words().hash(state);
    }
}
