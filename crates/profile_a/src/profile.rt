// The draft of profile A.
ghost use Rattle.std.specs.Prelude.{◌≡◌};
ghost use Rattle.envelopes.specs.Drafts.{profile as profile_of};
ghost use Rattle.envelopes.specs.Figures.{the_profile_a};
ghost use Rattle.envelopes.specs.Refusals.{told_by};
ghost use Rattle.tokens.specs.Refusals.{answered};

use envelopes::draft::Draft;
use envelopes::figures::profile_a;
use envelopes::refusal::Refusal;
use envelopes::row::Row;

// It is never refused.
pub(crate) fn draft_of_a() -> Result<Draft, Refusal>
    ensures { told_by profile_of result ≡ answered the_profile_a }
{
    let [lower, upper] = profile_a();
    let mut draft = Draft::new(Row::new(lower)?);
    draft.add(Row::new(upper)?)?;
    Ok(draft)
}
