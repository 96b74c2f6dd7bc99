// Modules that are loaded.

ghost use Rattle.std.specs.Prelude.{◌≡◌, ◌↔◌, ℕ, ◌≤◌, ◌<◌, false, [], ◌∷◌, ◌++◌, length, IfOk, OnOk, vec_capacity};
ghost use Rattle.kl1_model.specs.declared.limits.TheConstants.{MOST_SOURCE_BYTES};
ghost use Rattle.kl1_model.specs.Module.{read_module, good};
ghost use Rattle.kl1_atoms.specs.Names.{AreNames};
ghost use Rattle.kl1_codes.specs.Numbered.{AreRead, ArePlaced, own_names, number_of};
ghost use Rattle.kl1_codes.specs.Finding.{is_numbered};
ghost use Rattle.kl1_user_effects.specs.Fitting.{Reading, Fits};
ghost use Rattle.kl1_user_effects.specs.Naming.{AreSmall, ReadsDraft};
ghost use Rattle.kl1_user_account.specs.Loadings.{DraftsAs, LoadsAs, StandsIn};

use kl1_clause::{Code, CodeFault};
use kl1_codes::{CodeSource, Loaded, Modules, number_by};
use kl1_model::limits::{MOST_MODULES, MOST_SOURCE_BYTES};
use kl1_text::{AtomText, CellName};
use kl1_user_effects::{AccountNames, spare_row};
use kl1_user_events::Refusal;
use std::alloc::{AllocError, Global};

/// What comes of a source that is to be loaded: a refusal, or a module that is drafted. Those of its names that are new have
/// spare numbers.
#[derive(Drop)]
pub(crate) enum Loading<C: CodeSource> {
    Refused(Refusal),
    Drafted(Loaded<C>),
}

/// The numbers of the names of a code, spare ones for those that are new.
fn row_of(alloc: Global, names: &AccountNames, code: &Code) -> Result<Vec<CellName>, AllocError>
    requires names { AreNames names.now.names }
    requires small { AreSmall names.now.names }
    ensures { IfOk result (λ row. ReadsDraft names.now.names (own_names code.now) row.items) }
{
    let texts = code.names();
    let mut row = Vec::with_capacity(alloc, texts.len())?;
    spare_row(names, texts, &mut row)?;
    Ok(row)
}

/// Why an account with these modules and names, which may have `most` names and whose journal may be full, refuses the module of a code whose names have
/// these numbers; nothing if it may be loaded.
fn refusal_of<C: CodeSource>(
    modules: &Modules<C>,
    names: &AccountNames,
    most: usize,
    is_full: bool,
    code: &Code,
    row: &[CellName],
) -> Option<Refusal>
    requires reads { ReadsDraft names.now.names (own_names code.now) row.now }
    requires rows { (f : Reading) → Fits names.now.names f → AreRead f modules.now.loaded }
    ensures { (place : ℕ × ℕ) → DraftsAs modules.now.loaded names.now.names most is_full (record { content = code.now; row = row.now; place = place }) result }
{
    if modules.has(number_by(code, row)) {
        return Some(Refusal::Exists);
    }
    if names.are_too_many(code.names(), most) {
        return Some(Refusal::Names);
    }
    if modules.len() >= MOST_MODULES {
        return Some(Refusal::Limit);
    }
    if is_full {
        return Some(Refusal::Journal);
    }
    None
}

/// Drafts the module of a reference that was found for a source, as `draft_module`.
fn draft_found<C: CodeSource>(
    alloc: Global,
    modules: &Modules<C>,
    names: &AccountNames,
    codes: &C,
    most: usize,
    is_full: bool,
    source: &[u8],
    found: C::Ref,
) -> Result<Loading<C>, AllocError>
    requires names { AreNames names.now.names }
    requires small { AreSmall names.now.names }
    requires rows { (f : Reading) → Fits names.now.names f → AreRead f modules.now.loaded }
    requires few { length source.now ≤ MOST_SOURCE_BYTES }
    requires of { C.has codes.now (C.place found) }
    requires module { read_module source.now ≡ good (C.meaning found) }
    ensures loads { IfOk result (LoadsAs modules.now.loaded names.now.names most is_full source.now) }
    ensures stands { IfOk result (StandsIn (C.has codes.now)) }
{
    let code = codes.code(&found);
    let row = row_of(alloc, names, code)?;
    match refusal_of(modules, names, most, is_full, code, &row) {
        Some(refusal) => Ok(Loading::Refused(refusal)),
        None => Ok(Loading::Drafted(Loaded::new(alloc, codes, found, row)?)),
    }
}

/// Drafts the module of a source that wasn't found, as `draft_module`. Its code is put in only if the module isn't refused.
fn draft_new<C: CodeSource>(
    alloc: Global,
    modules: &Modules<C>,
    names: &AccountNames,
    codes: &mut C,
    most: usize,
    is_full: bool,
    source: &[u8],
) -> Result<Loading<C>, AllocError>
    requires names { AreNames names.now.names }
    requires small { AreSmall names.now.names }
    requires rows { (f : Reading) → Fits names.now.names f → AreRead f modules.now.loaded }
    requires few { length source.now ≤ MOST_SOURCE_BYTES }
    ensures loads { IfOk result (LoadsAs modules.now.loaded names.now.names most is_full source.now) }
    ensures stands { IfOk result (StandsIn (C.has codes.new)) }
    ensures same { (p : ℕ × ℕ) → C.has codes.old p ↔ C.has codes.new p }
{
    let code = match Code::compile(alloc, source) {
        Ok(code) => code,
        Err(CodeFault::Bad { line }) => {
            return Ok(Loading::Refused(Refusal::Source { line }));
        }
        Err(CodeFault::Memory) => return Err(AllocError),
    };
    let row = row_of(alloc, names, &code)?;
    match refusal_of(modules, names, most, is_full, &code, &row) {
        Some(refusal) => Ok(Loading::Refused(refusal)),
        None => {
            let pushed = codes.push(code)?;
            Ok(Loading::Drafted(Loaded::new(alloc, codes, pushed, row)?))
        }
    }
}

/// Drafts the module of a source for an account with these modules and names, which may have `most` names and whose journal may be
/// full. Its code is put in if it isn't found and the module isn't refused.
pub(crate) fn draft_module<C: CodeSource>(
    alloc: Global,
    modules: &Modules<C>,
    names: &AccountNames,
    codes: &mut C,
    most: usize,
    is_full: bool,
    source: &[u8],
) -> Result<Loading<C>, AllocError>
    requires names { AreNames names.now.names }
    requires small { AreSmall names.now.names }
    requires rows { (f : Reading) → Fits names.now.names f → AreRead f modules.now.loaded }
    ensures loads { IfOk result (LoadsAs modules.now.loaded names.now.names most is_full source.now) }
    ensures stands { IfOk result (StandsIn (C.has codes.new)) }
    ensures same { (p : ℕ × ℕ) → C.has codes.old p ↔ C.has codes.new p }
{
    if source.len() > MOST_SOURCE_BYTES {
        return Ok(Loading::Refused(Refusal::Syntax));
    }
    match codes.find(source) {
        Some(found) => draft_found(alloc, modules, names, codes, most, is_full, source, found),
        None => draft_new(alloc, modules, names, codes, most, is_full, source),
    }
}

/// An empty row with room for the numbers of these names, for which there is room among the names of an account then.
pub(crate) fn row_for(
    alloc: Global,
    names: &mut AccountNames,
    texts: &[AtomText],
) -> Result<Vec<CellName>, AllocError>
    ensures row { IfOk result (λ row. row.items ≡ []) }
    ensures row_room { IfOk result (λ row. length texts.now ≤ vec_capacity row) }
    ensures room { OnOk result (length texts.now ≤ names.new.room) }
    ensures names { names.new.names ≡ names.old.names }
{
    names.reserve(texts.len())?;
    Vec::with_capacity(alloc, texts.len())
}

/// Puts a drafted module after the others, under these numbers of its names.
pub(crate) fn push_module<C: CodeSource>(
    modules: &mut Modules<C>,
    codes: &C,
    mut draft: Loaded<C>,
    row: &[CellName],
)
    requires of { C.has codes.now draft.place }
    requires count { length row.now ≡ length (own_names draft.content) }
    requires room { 0 < modules.old.room }
    requires new { is_numbered modules.old.loaded (number_of (record draft { row = row.now })) ≡ false }
    ensures modules { modules.new.loaded ≡ modules.old.loaded ++ record draft { row = row.now } ∷ [] }
{
    draft.renumber(codes, row);
    modules.push(draft);
}
