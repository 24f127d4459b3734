//! The parameters of an instance, at the attributes of its entity in their order (ISO 10303-21, mapping of EXPRESS entity
//! data types: internal mapping).
ghost use Rattle.std.specs.Prelude.{IfOk};
ghost use Rattle.p21_spec_exchange.specs.Parameter.{more_tokens, params_tokens};
ghost use Rattle.p21_spec_file.specs.ValueText.{with_commas, with_commas_between};
ghost use Rattle.p21_shorter_instances.specs.Leaving.{LeavesNeeds, LeavesText};
ghost use Rattle.p21_shorter_instances.specs.TakenParameters.{AreStepsIn, TakesStep, TakesSteps};
ghost use Rattle.p21_shorter_instances.specs.Steps.{IsStepForSome};

use crate::given_up::GivenUp;
use crate::separated_delimiter::append_delimiter;
use crate::step::Step;
use crate::taken::Taken;
use crate::value::append_value;
use p21_schema::Schema;
use p21_shorter_tokens::behind_separators;

/// Appends the values at the front by what may stand at their attributes, with a comma between each two, and adds their
/// references: what stands behind them.
pub(crate) fn append_places<'a>(
    schema: &Schema,
    steps: &[Step],
    bytes: &'a [u8],
    taken: &mut Taken,
) -> Result<&'a [u8], GivenUp>
    requires { AreStepsIn schema.now steps.now }
    ensures some { IfOk result (λ rest. TakesSteps schema.now params_tokens with_commas_between steps.now bytes.now rest.now taken.old
        taken.new) }
    ensures draft { LeavesText result taken.old.draft taken.new.draft }
    ensures needs { LeavesNeeds result taken.old.needs.items taken.new.needs.items }
{
    let Some((first, others)) = steps.split_first() else {
        return Ok(bytes);
    };
    let rest = append_place(schema, first, bytes, taken)?;
    append_others(schema, others, rest, taken)
}

/// The same with a comma before each.
fn append_others<'a>(
    schema: &Schema,
    steps: &[Step],
    bytes: &'a [u8],
    taken: &mut Taken,
) -> Result<&'a [u8], GivenUp>
    requires { AreStepsIn schema.now steps.now }
    ensures some { IfOk result (λ rest. TakesSteps schema.now more_tokens with_commas steps.now bytes.now rest.now taken.old taken.new) }
    ensures draft { LeavesText result taken.old.draft taken.new.draft }
    ensures needs { LeavesNeeds result taken.old.needs.items taken.new.needs.items }
{
    let mut rest = bytes;
    for step in steps {
        let Some(behind) = append_delimiter(b',', rest, &mut taken.draft) else {
            return Err(GivenUp::NotUsual);
        };
        rest = append_place(schema, step, behind, taken)?;
    }
    Ok(rest)
}

/// The value at one attribute, behind separators.
#[inline(always)]
fn append_place<'a>(
    schema: &Schema,
    step: &Step,
    bytes: &'a [u8],
    taken: &mut Taken,
) -> Result<&'a [u8], GivenUp>
    requires { IsStepForSome schema.now step.now }
    ensures some { IfOk result (λ rest. TakesStep schema.now step.now bytes.now rest.now taken.old taken.new) }
    ensures draft { LeavesText result taken.old.draft taken.new.draft }
    ensures needs { LeavesNeeds result taken.old.needs.items taken.new.needs.items }
{
    append_value(schema, step, behind_separators(bytes), taken)
}
