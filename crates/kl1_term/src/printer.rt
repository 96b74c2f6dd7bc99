// Printing a term node by node.

ghost use Rattle.std.specs.Prelude.{◌≡◌, ℕ, ◌+◌, ◌<◌, List, [], ◌∷◌, ◌++◌, map, reverse, OnOk, IfOk, IsTrue, codes};
ghost use Rattle.kl1_model.specs.Name.{atom_text};
ghost use Rattle.kl1_model.specs.Term.{Term as TermSpec};
ghost use Rattle.kl1_model.specs.Print.{print, printed_atom};
ghost use Rattle.kl1_term.specs.Nodes.{code_of, with_node, with_nodes, count_in, left_after};
ghost use Rattle.kl1_term.specs.Page.{page_text, limited, is_over};
ghost use Rattle.kl1_term.specs.Openings.{opening_of};
ghost use Rattle.kl1_term.specs.Printing.{text_of, text_in, behind_text, waits_of, waits_in, waits_behind, written, IsSettled};
ghost use Rattle.kl1_term.specs.declared.frame.Frame.TheVariants.{Arguments, Tail, Bracket};
ghost use Rattle.kl1_term.specs.declared.mode.Mode.TheVariants.{Whole, Rest, Colon, Behind};
ghost use Rattle.kl1_term.specs.declared.node.Node.TheVariants.{Variable, Integer, Atom, Structure};
ghost use Rattle.kl1_term.specs.declared.opening.Opening.TheVariants.{Call};

use crate::frame::Frame;
use crate::mode::Mode;
use crate::node::Node;
use crate::opening::{Opening, RestForm, find_atom, find_opening, rest_form, stands_behind_colon};
use crate::page::Page;
use itoa::Buffer;
use kl1_text::AtomText;
use std::alloc::{AllocError, Global};

/// Prints one term whose nodes come in the order of reading.
#[derive(Drop)]
pub struct Printer {
    page: Page,
    mode: Mode,
    frames: Vec<Frame>,
}

impl Printer {
    /// Nothing printed yet. The text is cut after `most` bytes, if that is given.
    pub fn new(alloc: Global, most: Option<usize>) -> Self
        ensures text { (ts : List TermSpec) → text_of result ts ≡ limited most (text_in Whole [] ts) }
        ensures waits { waits_of result ≡ 1 }
    {
        Printer {
            page: Page::new(alloc, most),
            mode: Mode::Whole,
            frames: Vec::new(alloc),
        }
    }

    /// Whether what is printed is all, whatever comes.
    pub fn is_done(&self) -> bool
        ensures settled { IsTrue result → IsSettled self.now }
        ensures whole { waits_of self.now ≡ 0 → IsTrue result }
        ensures cut { IsTrue (is_over self.now.page) → IsTrue result }
    {
        if self.page.is_full() {
            return true;
        }
        match self.mode {
            Mode::Done => true,
            _ => false,
        }
    }

    /// Prints nodes, up to where the text is whole or too long.
    #[tactic(auto, using(crate::proofs::Balance::left_step, crate::proofs::Balance::nothing_left))]
    pub fn put_all(&mut self, nodes: &[Node]) -> Result<(), AllocError>
        ensures text { OnOk result ((ts : List TermSpec) → text_of self.new ts ≡ text_of self.old (with_nodes nodes.now ts)) }
        ensures settled { OnOk result (left_after (map code_of nodes.now) (waits_of self.old) ≡ 0 → IsSettled self.new) }
    {
        let mut nodes = nodes;
        while let [first, rest @ ..] = nodes {
            if self.is_done() {
                return Ok(());
            }
            self.put(*first)?;
            nodes = rest;
        }
        Ok(())
    }

    /// The text.
    pub fn into_text(self) -> Result<Vec<u8>, AllocError>
        ensures { IfOk result (λ text. text.items ≡ written self) }
    {
        let Printer { page, .. } = self;
        page.into_text()
    }

    /// Prints the next node.
    pub fn put(&mut self, node: Node) -> Result<(), AllocError>
        ensures text { OnOk result ((ts : List TermSpec) → text_of self.new ts ≡ text_of self.old (with_node node ts)) }
        ensures waits { OnOk result (0 < waits_of self.old → waits_of self.new + 1 ≡ count_in node + waits_of self.old) }
    {
        let mode = self.mode;
        match mode {
            Mode::Whole => self.put_whole(node),
            Mode::Rest => self.put_rest(node),
            Mode::Colon => self.put_before_colon(node),
            Mode::Behind(name) => self.put_behind_colon(name, node),
            Mode::Done => Ok(()),
        }
    }

    /// Prints a variable.
    pub fn put_variable(&mut self, number: u64) -> Result<(), AllocError>
        ensures text { OnOk result ((ts : List TermSpec) → text_of self.new ts ≡ text_of self.old (with_node (Variable number) ts)) }
        ensures waits { OnOk result (0 < waits_of self.old → waits_of self.new + 1 ≡ waits_of self.old) }
    {
        match self.mode {
            Mode::Whole => self.put_variable_alone(number),
            _ => self.put(Node::Variable(number)),
        }
    }

    /// Prints an integer.
    pub fn put_integer(&mut self, number: i64) -> Result<(), AllocError>
        ensures text { OnOk result ((ts : List TermSpec) → text_of self.new ts ≡ text_of self.old (with_node (Integer number) ts)) }
        ensures waits { OnOk result (0 < waits_of self.old → waits_of self.new + 1 ≡ waits_of self.old) }
    {
        match self.mode {
            Mode::Whole => self.put_constant(Buffer::new().format(number).as_bytes()),
            _ => self.put(Node::Integer(number)),
        }
    }

    /// Prints an atom.
    pub fn put_atom(&mut self, name: &AtomText) -> Result<(), AllocError>
        ensures text { OnOk result ((ts : List TermSpec) → text_of self.new ts ≡ text_of self.old (with_node (Atom name.now) ts)) }
        ensures waits { OnOk result (0 < waits_of self.old → waits_of self.new + 1 ≡ waits_of self.old) }
    {
        match self.mode {
            Mode::Whole => self.put_atom_alone(name),
            _ => self.put(Node::Atom(*name)),
        }
    }

    /// Prints the name of a structure, whose `count` arguments follow.
    pub fn put_structure(&mut self, name: &AtomText, count: usize) -> Result<(), AllocError>
        ensures text { OnOk result ((ts : List TermSpec) → text_of self.new ts ≡ text_of self.old (with_node (Structure name.now count) ts)) }
        ensures waits { OnOk result (0 < waits_of self.old → waits_of self.new + 1 ≡ count + waits_of self.old) }
    {
        match self.mode {
            Mode::Whole => self.put_structure_alone(name, count),
            _ => self.put(Node::Structure(*name, count)),
        }
    }

    /// Prints a list cell, whose two arguments follow: like `put_structure` of the name `.`, without comparing names.
    #[tactic(auto, using(crate::proofs::Texts::cell_goes_on, crate::proofs::Texts::rest_goes_on))]
    pub fn put_cell(&mut self) -> Result<(), AllocError>
        ensures text { OnOk result ((ts : List TermSpec) → text_of self.new ts ≡ text_of self.old (with_node (Structure (codes ".") 2) ts)) }
        ensures waits { OnOk result (0 < waits_of self.old → waits_of self.new + 1 ≡ 2 + waits_of self.old) }
    {
        match self.mode {
            Mode::Whole => self.enter(b"[", Frame::Tail),
            Mode::Rest => self.enter(b",", Frame::Tail),
            _ => self.put(Node::Structure(AtomText::of(b"."), 2)),
        }
    }

    /// Prints a node as its term stands alone.
    fn put_whole(&mut self, node: Node) -> Result<(), AllocError>
        ensures text { OnOk result ((ts : List TermSpec) → text_of self.new ts ≡ page_text self.old.page (text_in Whole (reverse self.old.frames.items) (with_node node ts))) }
        ensures waits { OnOk result (waits_of self.new ≡ count_in node + waits_behind (reverse self.old.frames.items)) }
    {
        match node {
            Node::Variable(number) => self.put_variable_alone(number),
            Node::Integer(number) => self.put_constant(Buffer::new().format(number).as_bytes()),
            Node::Atom(name) => self.put_atom_alone(&name),
            Node::Structure(name, count) => self.put_structure_alone(&name, count),
        }
    }

    /// Prints a node as its term stands after the elements of a list.
    #[tactic(auto, using(crate::proofs::Texts::rest_ends, crate::proofs::Texts::rest_goes_on, crate::proofs::Texts::rest_behind_bar))]
    fn put_rest(&mut self, node: Node) -> Result<(), AllocError>
        ensures text { OnOk result ((ts : List TermSpec) → text_of self.new ts ≡ page_text self.old.page (text_in Rest (reverse self.old.frames.items) (with_node node ts))) }
        ensures waits { OnOk result (waits_of self.new ≡ count_in node + waits_behind (reverse self.old.frames.items)) }
    {
        match rest_form(&node) {
            RestForm::End => self.put_constant(b"]"),
            RestForm::Element => { self.enter(b",", Frame::Tail) }
            RestForm::Bar => self.put_above(b"|", Frame::Bracket, node),
        }
    }

    /// Prints a node as its term stands before a colon, if the two are printed so.
    #[tactic(auto, using(crate::proofs::Texts::colon_is_call))]
    fn put_before_colon(&mut self, node: Node) -> Result<(), AllocError>
        ensures text { OnOk result ((ts : List TermSpec) → text_of self.new ts ≡ page_text self.old.page (text_in Colon (reverse self.old.frames.items) (with_node node ts))) }
        ensures waits { OnOk result (waits_of self.new ≡ count_in node + (1 + waits_behind (reverse self.old.frames.items))) }
    {
        match find_atom(&node) {
            Some(name) => {
                self.mode = Mode::Behind(name);
                Ok(())
            }
            None => self.put_above(b"':'(", Frame::Arguments(1), node),
        }
    }

    /// Prints a node as its term stands after a colon, if the two are printed so.
    #[tactic(auto, using(crate::proofs::Texts::behind_colon, crate::proofs::Texts::behind_comma))]
    fn put_behind_colon(&mut self, name: AtomText, node: Node) -> Result<(), AllocError>
        ensures text { OnOk result ((ts : List TermSpec) → text_of self.new ts ≡ page_text self.old.page (text_in (Behind name) (reverse self.old.frames.items) (with_node node ts))) }
        ensures waits { OnOk result (waits_of self.new ≡ count_in node + waits_behind (reverse self.old.frames.items)) }
    {
        if stands_behind_colon(&node) {
            put_module(&mut self.page, &name)?;
            return self.put_whole(node);
        }
        put_first_of_two(&mut self.page, &name)?;
        self.put_above(b",", Frame::Arguments(0), node)
    }

    /// Puts bytes, and prints a node as its term stands alone, with this after it.
    fn put_above(&mut self, text: &[u8], frame: Frame, node: Node) -> Result<(), AllocError>
        ensures text { OnOk result ((ts : List TermSpec) → text_of self.new ts ≡ page_text self.old.page (text.now ++ text_in Whole (frame ∷ reverse self.old.frames.items) (with_node node ts))) }
        ensures waits { OnOk result (waits_of self.new ≡ count_in node + waits_behind (frame ∷ reverse self.old.frames.items)) }
    {
        self.page.put(text)?;
        self.frames.push(frame)?;
        self.put_whole(node)
    }

    /// Prints a variable as it stands alone.
    fn put_variable_alone(&mut self, number: u64) -> Result<(), AllocError>
        ensures text { OnOk result ((ts : List TermSpec) → text_of self.new ts ≡ page_text self.old.page (text_in Whole (reverse self.old.frames.items) (with_node (Variable number) ts))) }
        ensures waits { OnOk result (waits_of self.new ≡ waits_behind (reverse self.old.frames.items)) }
    {
        self.page.put(b"_")?;
        self.put_constant(Buffer::new().format(number).as_bytes())
    }

    /// Prints an atom as it stands alone.
    #[tactic(auto, using(crate::proofs::Texts::atom_alone))]
    fn put_atom_alone(&mut self, name: &AtomText) -> Result<(), AllocError>
        ensures text { OnOk result ((ts : List TermSpec) → text_of self.new ts ≡ page_text self.old.page ((printed_atom name.now).whole ++ behind_text (reverse self.old.frames.items) ts)) }
        ensures waits { OnOk result (waits_of self.new ≡ waits_behind (reverse self.old.frames.items)) }
    {
        self.page.put_atom(name)?;
        self.complete()
    }

    /// Prints the node of a structure as it stands alone.
    #[tactic(auto, using(crate::proofs::Texts::cell_goes_on, crate::proofs::Texts::colon_goes_on, crate::proofs::Openings::opens_cell, crate::proofs::Openings::opens_colon))]
    fn put_structure_alone(&mut self, name: &AtomText, count: usize) -> Result<(), AllocError>
        ensures text { OnOk result ((ts : List TermSpec) → text_of self.new ts ≡ page_text self.old.page (text_in Whole (reverse self.old.frames.items) (with_node (Structure name.now count) ts))) }
        ensures waits { OnOk result (waits_of self.new ≡ count + waits_behind (reverse self.old.frames.items)) }
    {
        match find_opening(name, count) {
            Opening::Cell => { self.enter(b"[", Frame::Tail) }
            Opening::Colon => {
                self.mode = Mode::Colon;
                Ok(())
            }
            Opening::Call => self.put_call(name, count),
        }
    }

    /// Prints the name of a structure that is printed with it.
    #[tactic(auto, using(crate::proofs::Texts::call_goes_on, crate::proofs::Texts::call_ends))]
    fn put_call(&mut self, name: &AtomText, count: usize) -> Result<(), AllocError>
        requires { opening_of name.now count ≡ Call }
        ensures text { OnOk result ((ts : List TermSpec) → text_of self.new ts ≡ page_text self.old.page (text_in Whole (reverse self.old.frames.items) (with_node (Structure name.now count) ts))) }
        ensures waits { OnOk result (waits_of self.new ≡ count + waits_behind (reverse self.old.frames.items)) }
    {
        self.page.put_name(name)?;
        if count == 0 {
            return self.put_constant(b"()");
        }
        self.enter(b"(", Frame::Arguments(count - 1))
    }

    /// Puts bytes, and begins a term with this after it.
    fn enter(&mut self, text: &[u8], frame: Frame) -> Result<(), AllocError>
        ensures text { OnOk result ((ts : List TermSpec) → text_of self.new ts ≡ page_text self.old.page (text.now ++ text_in Whole (frame ∷ reverse self.old.frames.items) ts)) }
        ensures waits { OnOk result (waits_of self.new ≡ waits_in Whole (frame ∷ reverse self.old.frames.items)) }
    {
        self.page.put(text)?;
        self.frames.push(frame)?;
        self.mode = Mode::Whole;
        Ok(())
    }

    /// Prints the text of a term without arguments.
    fn put_constant(&mut self, text: &[u8]) -> Result<(), AllocError>
        ensures text { OnOk result ((ts : List TermSpec) → text_of self.new ts ≡ page_text self.old.page (text.now ++ behind_text (reverse self.old.frames.items) ts)) }
        ensures waits { OnOk result (waits_of self.new ≡ waits_behind (reverse self.old.frames.items)) }
    {
        self.page.put(text)?;
        self.complete()
    }

    /// Ends a term: what stands after it up to the next term.
    fn complete(&mut self) -> Result<(), AllocError>
        ensures text { OnOk result ((ts : List TermSpec) → text_of self.new ts ≡ page_text self.old.page (behind_text (reverse self.old.frames.items) ts)) }
        ensures waits { OnOk result (waits_of self.new ≡ waits_behind (reverse self.old.frames.items)) }
    {
        while let Some(frame) = self.frames.pop() {
            match frame {
                Frame::Arguments(0) => self.page.put(b")")?,
                Frame::Arguments(count) => return self.next_argument(count),
                Frame::Bracket => self.page.put(b"]")?,
                Frame::Tail => {
                    self.mode = Mode::Rest;
                    return Ok(());
                }
            }
        }
        self.mode = Mode::Done;
        Ok(())
    }

    /// Goes on to the next of `count` arguments.
    #[tactic(auto, using(crate::proofs::Frames::next_argument))]
    fn next_argument(&mut self, count: usize) -> Result<(), AllocError>
        requires { 0 < count }
        ensures text { OnOk result ((ts : List TermSpec) → text_of self.new ts ≡ page_text self.old.page (behind_text (Arguments count ∷ reverse self.old.frames.items) ts)) }
        ensures waits { OnOk result (waits_of self.new ≡ count + waits_behind (reverse self.old.frames.items)) }
    {
        self.enter(b",", Frame::Arguments(count - 1))
    }
}

/// Prints an atom and a colon.
fn put_module(page: &mut Page, name: &AtomText) -> Result<(), AllocError>
    ensures { OnOk result ((rest : List ℕ) → page_text page.new rest ≡ page_text page.old (atom_text name.now ++ (codes ":" ++ rest))) }
{
    page.put_atom(name)?;
    page.put(b":")
}

/// Prints a colon as a structure's name, and an atom as its first argument.
fn put_first_of_two(page: &mut Page, name: &AtomText) -> Result<(), AllocError>
    ensures { OnOk result ((rest : List ℕ) → page_text page.new rest ≡ page_text page.old (codes "':'(" ++ (atom_text name.now ++ rest))) }
{
    page.put(b"':'(")?;
    page.put_atom(name)
}
