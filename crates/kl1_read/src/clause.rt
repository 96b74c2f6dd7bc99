// Clauses.

ghost use Rattle.std.specs.Prelude.{◌≡◌, [], map, option_and_then, IfOk};
ghost use Rattle.kl1_model.specs.Module.{clause_of};
ghost use Rattle.kl1_model.specs.Numbering.{numbered_tokens};
ghost use Rattle.kl1_model.specs.reader.Reader.{all_read};
ghost use Rattle.kl1_read.specs.Views.{kept_token};
ghost use Rattle.kl1_read.specs.Sources.{clause_of_parts};
ghost use Rattle.kl1_read.specs.Statements.{given, statement_of, statement_read, clause_of_statement};

use crate::body::put_goals;
use crate::clause_parts::ClauseParts;
use crate::clause_terms::{ClauseTerms, read_terms};
use crate::kept::Kept;
use crate::patterns::{put_patterns, put_tests};
use kl1_text::AtomText;
use std::alloc::{AllocError, Global};

/// Reads the clause that all tokens of an item are in a module of this name. Answers whether they are one.
pub(crate) fn read_clause(
    alloc: Global,
    module_name: AtomText,
    tokens: Vec<Kept>,
    parts: &mut ClauseParts,
) -> Result<bool, AllocError>
    requires patterns { parts.old.patterns.items ≡ [] }
    requires tests { parts.old.tests.items ≡ [] }
    requires section { parts.old.section ≡ 0 }
    requires body { parts.old.body.items ≡ [] }
    ensures { IfOk result (λ r. given r (clause_of_parts parts.new) ≡ clause_of module_name (map kept_token tokens.items)) }
{
    let mut terms = ClauseTerms {
        name: module_name,
        arguments: Vec::new(alloc),
        tests: Vec::new(alloc),
        body: Vec::new(alloc),
    };
    read_parts(alloc, module_name, tokens, &mut terms, parts)
}

/// Reads the clause of an item by way of terms. Answers whether there is one, and each of them may stand where it stands.
fn read_parts(
    alloc: Global,
    module_name: AtomText,
    tokens: Vec<Kept>,
    terms: &mut ClauseTerms,
    parts: &mut ClauseParts,
) -> Result<bool, AllocError>
    requires arguments { terms.old.arguments.items ≡ [] }
    requires terms_tests { terms.old.tests.items ≡ [] }
    requires terms_body { terms.old.body.items ≡ [] }
    requires patterns { parts.old.patterns.items ≡ [] }
    requires tests { parts.old.tests.items ≡ [] }
    requires section { parts.old.section ≡ 0 }
    requires body { parts.old.body.items ≡ [] }
    ensures { IfOk result (λ r. given r (clause_of_parts parts.new) ≡ option_and_then (clause_of_statement module_name) (all_read (statement_read (numbered_tokens (map kept_token tokens.items))))) }
{
    if !read_terms(alloc, tokens, terms)? {
        return Ok(false);
    }
    parts.name = terms.name;
    if !put_patterns(
        alloc,
        &terms.name,
        &mut terms.arguments,
        &mut parts.patterns,
    )? {
        return Ok(false);
    }
    if !put_tests(
        alloc,
        parts.patterns.as_slice(),
        &mut terms.tests,
        &mut parts.tests,
    )? {
        return Ok(false);
    }
    put_goals(alloc, module_name, &mut terms.body, &mut parts.body)
}
