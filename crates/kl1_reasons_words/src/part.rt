// Heads, tests and goals as far as their tokens show them.

/// What a part of a clause is, by what in it binds least.
#[derive(Clone, Copy, PartialEq)]
pub enum Main {
    /// Nothing was read of it.
    Nothing,
    /// A variable.
    Variable,
    /// An integer.
    Number,
    /// A list.
    List,
    /// Something in parentheses.
    Group,
    /// A name, with its arguments or without any.
    Name,
    /// Something after the name of a module.
    Qualified,
    /// A product.
    Product,
    /// A sum.
    Sum,
    /// Something with a relation.
    Relation,
}

/// How loosely something binds.
fn rank(main: Main) -> u8 {
    match main {
        Main::Nothing => 0,
        Main::Variable | Main::Number | Main::List | Main::Group | Main::Name => 1,
        Main::Qualified => 2,
        Main::Product => 3,
        Main::Sum => 4,
        Main::Relation => 5,
    }
}

/// A head, a test or a goal. Places are those of tokens in their item.
#[derive(Clone, Copy)]
pub struct Part {
    /// The place of its first token.
    pub first: usize,
    /// The place of the token after its last.
    pub end: usize,
    /// What it is.
    pub main: Main,
    /// The place of the token that says so: the operator, or the first.
    pub place: usize,
    /// How many arguments its name has, if it is a name.
    pub count: u64,
    /// The place of its `@`, if there is one.
    pub priority: Option<usize>,
}

impl Part {
    /// A part of which nothing was read, whose first token has this place.
    pub fn new(first: usize) -> Self {
        Part {
            first,
            end: first,
            main: Main::Nothing,
            place: first,
            count: 0,
            priority: None,
        }
    }

    /// Takes an operator, which says what the part is if none binds less.
    pub fn take_operator(&mut self, main: Main, place: usize) {
        if rank(self.main) <= rank(main) {
            self.main = main;
            self.place = place;
        }
    }

    /// Takes a term without operators, which says what the part is if it is the first.
    pub fn take_term(&mut self, main: Main, place: usize) {
        if self.main == Main::Nothing {
            self.main = main;
            self.place = place;
        }
    }
}
