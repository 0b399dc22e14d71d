ghost use Rattle.std.specs.Prelude.{◌≡◌, ◌∷◌, IfOk};
ghost use Rattle.std.specs.List.{list_any};
ghost use Rattle.meaning_rules.specs.State.{same, is_among};
ghost use Rattle.plain_interpreter.specs.Scopes.{scope_of, has_local, sets};

use crate::names::{is_among, same};
use codon_base::{Memory, Spelling};
use source_trees::{LoopNames, Name};
use std::alloc::Global;

/// The names of a comprehension.
#[derive(Clone, Copy)]
pub(crate) struct Inner<'a> {
    pub(crate) names: &'a LoopNames,
}

/// Where a text stands: the names of the comprehensions round it, the innermost first, the variables of its body, those of them that no region has as private ones, and whether it is the prelude's.
#[derive(Clone, Copy)]
pub(crate) struct Scope<'a> {
    pub(crate) inner: &'a [Inner<'a>],
    pub(crate) locals: &'a [Spelling],
    pub(crate) fixed: &'a [Spelling],
    pub(crate) in_prelude: bool,
}

/// Whether a loop sets a name.
pub(crate) fn sets(names: &LoopNames, name: &Spelling) -> bool
    ensures { result ≡ sets name.now names.now }
{
    match names {
        LoopNames::One(only) => same(name, &only.spelling),
        LoopNames::Several(all) => is_one_of(all.as_slice(), name),
    }
}

fn is_one_of(names: &[Name], name: &Spelling) -> bool
    ensures { result ≡ list_any (λ other. same name.now other.spelling) names.now }
{
    names.iter().any(|other| same(name, &other.spelling))
}

fn is_inner(inner: &[Inner<'_>], name: &Spelling) -> bool
    ensures { result ≡ list_any (λ each. sets name.now each.names.now) inner.now }
{
    inner.iter().any(|each| sets(each.names, name))
}

fn has_local(scope: &Scope<'_>, name: &Spelling) -> bool
    ensures { result ≡ has_local name.now scope.now }
{
    is_inner(scope.inner, name) || is_among(name, scope.locals)
}

impl<'a> Scope<'a> {
    /// Whether a name is a variable of the text.
    pub(crate) fn has(&self, name: &Spelling) -> bool
        ensures { result ≡ is_among name.now (scope_of self.now).locals }
    {
        has_local(self, name)
    }
}

/// The names of comprehensions, with those of one more inside.
#[inline(never)]
pub(crate) fn within<'a>(
    alloc: Global,
    top: Inner<'a>,
    inner: &[Inner<'a>],
) -> Result<Vec<Inner<'a>>, Memory>
    ensures { IfOk result (λ all. all.items ≡ top.entry ∷ inner.now) }
{
    let mut all = Vec::new(alloc);
    all.push(top)?;
    'inner: for each in inner {
        all.push(*each)?;
    }
    Ok(all)
}
