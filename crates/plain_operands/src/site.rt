//! Whose statements are executed, and what names stand for there.
ghost use Rattle.std.specs.Prelude.{◌≡◌, option_copied};
ghost use Rattle.mean_blocks.specs.rule_scope.Uses.{meaning};
ghost use Rattle.mean_blocks.specs.NamesInRuns.{head, dims_at, takes_place, declared_at};
ghost use Rattle.plain_texts.specs.plain_declared.ShownNames.{head_of};

use est_syntax::kind::Kind;
use est_syntax::name::Used;
use mean_blocks::rule_scope::declaration::Meant;
use plain_texts::plain_declared::declared::{dims_at, takes_place};
use plain_texts::plain_declared::heads::Head;
use plain_texts::text::Text;

/// Whose statements are executed: of which instance, whether within a function, and how many levels
/// calls and initialize parts may open yet.
#[derive(Clone, Copy)]
pub struct Site<'s, 't> {
    pub text: &'s Text<'t>,
    pub instance: u32,
    pub function: bool,
    pub levels: u32,
}

/// What a name stands for.
pub fn head_at<'t>(site: &Site<'_, 't>, used: &Used) -> Head<'t>
    ensures { head_of result ≡ head site.now.text.now.outline used.now }
{
    site.text.head(used)
}

/// What a name means.
pub fn meaning_at(site: &Site, used: &Used) -> Meant
    ensures { result ≡ meaning site.now.text.now.outline used.now }
{
    site.text.meaning(used)
}

/// The kinds of the subscripts of what is declared at a place.
pub fn dims_of<'t>(site: &Site<'_, 't>, place: u32) -> Option<&'t [Kind]>
    ensures { option_copied result ≡ dims_at site.now.text.now.outline place }
{
    dims_at(site.text.outline(), place)
}

/// Whether the parameter with this number of the routine at a place is given a variable.
pub fn is_given_place(site: &Site, routine: u32, number: usize) -> bool
    ensures { result ≡ takes_place site.now.text.now.outline routine number }
{
    takes_place(site.text.outline(), routine, number)
}

/// Where a name is declared.
pub fn declared_of(site: &Site, used: &Used) -> Option<u32>
    ensures { result ≡ declared_at site.now.text.now.outline used.now }
{
    site.text.declared_at(used)
}
