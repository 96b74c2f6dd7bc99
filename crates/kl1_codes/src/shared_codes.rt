// The shared table as a source of codes.

ghost use Rattle.std.specs.Prelude.{◌≡◌};
ghost use Rattle.boxcar.specs.Table.{id_at};

use crate::code_source::CodeSource;
use crate::code_table::CodeTable;
use boxcar::Pushed;
use kl1_clause::{Code, CodeFault};
use std::alloc::AllocError;
use std::sync::Wait;

/// The shared table, lent with the handle by which a code is put in: a source of codes for code that takes any.
#[derive(Drop)]
pub struct SharedCodes<'c, R: Wait> {
    pub table: &'c CodeTable,
    pub rt: &'c R,
}

impl<'c, R: Wait> CodeSource for SharedCodes<'c, R> {
    type Ref = Pushed<Code>;

    ghost has = { λ codes p. p.0 ≡ id_at codes.table.now.buckets p.1 };

    ghost place = { λ r. (r.row, r.bucket) };

    ghost meaning = { λ r. r.value };

    fn find(&self, source: &[u8]) -> Option<Pushed<Code>> {
        self.table.find(source)
    }

    fn push(&mut self, code: Code) -> Result<Pushed<Code>, AllocError> {
        self.table.push(self.rt, code)
    }

    fn find_or_push(&mut self, source: &[u8]) -> Result<Pushed<Code>, CodeFault> {
        self.table.find_or_push(self.rt, source)
    }

    fn code<'a>(&'a self, r: &'a Pushed<Code>) -> &'a Code {
        self.table.code(r)
    }
}
