// Codes for one thread.

ghost use Rattle.std.specs.Prelude.{◌≡◌, IfOk, IfSome};
ghost use Rattle.std.specs.Arc.{arc_value};
ghost use Rattle.kl1_model.specs.Module.{good, read_module};

use crate::code_source::CodeSource;
use kl1_clause::{Code, CodeFault};
use std::alloc::{AllocError, Global};
use std::sync::Arc;

/// Codes for one thread, in order of their first use, and a search from the front.
#[derive(Drop)]
pub struct PlainCodes {
    codes: Vec<Arc<Code>>,
    alloc: Global,
}

impl PlainCodes {
    /// No codes.
    pub fn new(alloc: Global) -> Self {
        PlainCodes {
            codes: Vec::new(alloc),
            alloc,
        }
    }

    /// The code of a source that was put in, or nothing if there is none.
    fn kept(&self, source: &[u8]) -> Option<&Arc<Code>>
        ensures { IfSome result (λ r. read_module source.now ≡ good (arc_value r.now)) }
    {
        self.codes.iter().find(|code| code.source() == source)
    }

    /// Puts a code in.
    fn keep(&mut self, code: Code) -> Result<Arc<Code>, AllocError>
        ensures { IfOk result (λ r. arc_value r ≡ code) }
    {
        let code = Arc::new(self.alloc, code)?;
        self.codes.push(Arc::try_clone(&code)?)?;
        Ok(code)
    }
}

impl CodeSource for PlainCodes {
    ghost use Rattle.std.specs.Arc.{arc_value};

    type Ref = Arc<Code>;

    ghost has = { λ codes p. Unit {0} };

    ghost place = { λ r. (0, 0) };

    ghost meaning = { λ r. arc_value r };

    fn find(&self, source: &[u8]) -> Option<Arc<Code>> {
        let Some(kept) = self.kept(source) else {
            return None;
        };
        match Arc::try_clone(kept) {
            Ok(again) => Some(again),
            Err(_) => None,
        }
    }

    fn push(&mut self, code: Code) -> Result<Arc<Code>, AllocError> {
        self.keep(code)
    }

    fn find_or_push(&mut self, source: &[u8]) -> Result<Arc<Code>, CodeFault> {
        if let Some(found) = self.find(source) {
            return Ok(found);
        }
        let code = Code::compile(self.alloc, source)?;
        let Ok(kept) = self.keep(code) else {
            return Err(CodeFault::Memory);
        };
        Ok(kept)
    }

    fn code<'a>(&'a self, r: &'a Arc<Code>) -> &'a Code {
        r
    }
}
