// Terms with operators between their operands.

use crate::operators::{Level, Operator, operator_of};
use itoa::Buffer;
use kl1_model::limits::MOST_ARGUMENTS;
use kl1_term::Node;
use kl1_text::{AtomText, put_atom, put_int, put_name};
use std::alloc::{AllocError, Global};

/// What is still to be printed.
#[derive(Clone, Copy)]
enum Due {
    /// A term, which stands in parentheses if it holds together less tightly than this.
    Term(Level),
    /// A term of which the name stands in front.
    Called,
    /// What follows an element of a list.
    Rest,
    /// This text.
    Text(&'static [u8]),
}

/// A term that is being printed.
#[derive(Drop)]
struct InfixPrinter {
    out: Vec<u8>,
    /// What is due, the last first.
    due: Vec<Due>,
}

/// The text of the term of these nodes, with operators between their operands.
pub fn infix_text(alloc: Global, nodes: &[Node]) -> Result<Vec<u8>, AllocError> {
    let mut printer = InfixPrinter {
        out: Vec::new(alloc),
        due: Vec::new(alloc),
    };
    printer.due.push(Due::Term(Level::Relation))?;
    let mut rest = nodes;
    for _ in nodes {
        let [first, others @ ..] = rest else {
            break;
        };
        printer.put(first, others)?;
        rest = others;
    }
    printer.next_term()?;
    Ok(printer.out)
}

impl InfixPrinter {
    /// Has this printed before whatever is due already.
    fn wait_for(&mut self, due: Due) -> Result<(), AllocError> {
        self.due.push(due)?;
        Ok(())
    }

    /// Prints the texts that are due before the next term, and takes what this may be.
    fn next_term(&mut self) -> Result<Option<Due>, AllocError> {
        for _ in 0..self.due.len() {
            match self.due.pop() {
                Some(Due::Text(text)) => self.out.extend_from_slice(text)?,
                other => return Ok(other),
            }
        }
        Ok(None)
    }

    /// Prints the next node. Those after it are its arguments, and what is after them.
    fn put(&mut self, node: &Node, others: &[Node]) -> Result<(), AllocError> {
        match self.next_term()? {
            Some(Due::Term(level)) => self.put_term(level, node, others),
            Some(Due::Called) => self.put_called(node),
            Some(Due::Rest) => self.put_rest(node),
            _ => Ok(()),
        }
    }

    /// Prints what follows an element of a list: another element, the end, or a bar and a term.
    fn put_rest(&mut self, node: &Node) -> Result<(), AllocError> {
        match node {
            Node::Atom(name) if name.is(&AtomText::of(b"[]")) => self.out.extend_from_slice(b"]"),
            Node::Structure(name, 2) if name.is(&AtomText::of(b".")) => {
                self.out.extend_from_slice(b",")?;
                self.wait_for(Due::Rest)?;
                self.wait_for(Due::Term(Level::Relation))
            }
            _ => {
                self.out.extend_from_slice(b"|")?;
                self.wait_for(Due::Text(b"]"))?;
                self.put_term(Level::Relation, node, &[])
            }
        }
    }

    /// Prints a term that stands where one of this level may.
    fn put_term(&mut self, level: Level, node: &Node, others: &[Node]) -> Result<(), AllocError> {
        let Node::Structure(name, 2) = node else {
            return self.put_plain(level, node);
        };
        if let Some(operator) = operator_of(name) {
            return self.put_operator(level, operator);
        }
        if name.is(&AtomText::of(b".")) {
            self.out.extend_from_slice(b"[")?;
            self.wait_for(Due::Rest)?;
            return self.wait_for(Due::Term(Level::Relation));
        }
        if name.is(&AtomText::of(b":")) && is_qualified(others) {
            return self.put_qualified(level);
        }
        self.put_called(node)
    }

    /// Prints a module's name, a colon and what is after it.
    fn put_qualified(&mut self, level: Level) -> Result<(), AllocError> {
        self.open_group(Level::Part, level)?;
        self.wait_for(Due::Called)?;
        self.wait_for(Due::Text(b":"))?;
        self.wait_for(Due::Called)
    }

    /// Prints two operands with an operator between them.
    fn put_operator(&mut self, level: Level, operator: Operator) -> Result<(), AllocError> {
        self.open_group(operator.level, level)?;
        self.wait_for(Due::Term(operator.right))?;
        self.wait_for(Due::Text(operator.text))?;
        self.wait_for(Due::Term(operator.left))
    }

    /// Opens parentheses round a term of a level, if another may stand there.
    fn open_group(&mut self, level: Level, wanted: Level) -> Result<(), AllocError> {
        if level.fits(wanted) {
            return Ok(());
        }
        self.out.extend_from_slice(b"(")?;
        self.wait_for(Due::Text(b")"))
    }

    /// Prints a term that is no operator with its operands.
    fn put_plain(&mut self, level: Level, node: &Node) -> Result<(), AllocError> {
        match node {
            // After an operator the sign of a number would be taken for another one.
            Node::Integer(number) if *number < 0 => {
                self.open_group(Level::Sum, level)?;
                put_int(&mut self.out, *number)
            }
            _ => self.put_called(node),
        }
    }

    /// Prints a term with its name in front.
    fn put_called(&mut self, node: &Node) -> Result<(), AllocError> {
        match node {
            Node::Variable(number) => {
                self.out.extend_from_slice(b"_")?;
                let mut buffer = Buffer::new();
                self.out
                    .extend_from_slice(buffer.format(*number).as_bytes())
            }
            Node::Integer(number) => put_int(&mut self.out, *number),
            Node::Atom(name) => put_atom(&mut self.out, name),
            Node::Structure(name, count) => {
                put_name(&mut self.out, name)?;
                self.out.extend_from_slice(b"(")?;
                self.put_arguments(*count)
            }
        }
    }

    /// Has arguments printed, and what ends them.
    fn put_arguments(&mut self, count: usize) -> Result<(), AllocError> {
        self.wait_for(Due::Text(b")"))?;
        // No structure has more arguments than eight, but one that was cut.
        for place in 0..count.min(MOST_ARGUMENTS) {
            if 0 < place {
                self.wait_for(Due::Text(b","))?;
            }
            self.wait_for(Due::Term(Level::Relation))?;
        }
        Ok(())
    }
}

/// Whether a colon may stand between the two terms with which these nodes begin.
fn is_qualified(nodes: &[Node]) -> bool {
    match nodes {
        [Node::Atom(_module), Node::Atom(_name), ..] => true,
        [Node::Atom(_module), Node::Structure(name, 2), ..] => !name.is(&AtomText::of(b":")),
        [Node::Atom(_module), Node::Structure(_name, _count), ..] => true,
        _ => false,
    }
}
