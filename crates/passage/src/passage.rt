// The rehearsal itself, on any provider.
ghost use Rattle.std.specs.Prelude.{◌≡◌, true, IfOk};
ghost use Rattle.passage.specs.Opening.{OpensTo};

use provider::{Handle, Provider, ProviderError, reopen};
use terms::Kind;

// One leg of a passage: the buoy to pass, the course to it and the speed.
#[derive(Clone, Copy)]
pub(crate) struct Leg {
    pub(crate) buoy: usize,
    pub(crate) course: usize,
    pub(crate) speed: usize,
}

pub(crate) const LEGS: [Leg; 3] = [
    Leg {
        buoy: 12,
        course: 45,
        speed: 9,
    },
    Leg {
        buoy: 15,
        course: 80,
        speed: 7,
    },
    Leg {
        buoy: 21,
        course: 275,
        speed: 4,
    },
];

// What came of a rehearsal.
#[derive(Clone, Copy)]
pub(crate) struct Rehearsal {
    pub(crate) sealed: Handle,
    // the station opened its own sealed plan
    pub(crate) tried: bool,
    // the unit's plan is the station's
    pub(crate) arrived: bool,
    // a unit with another key has it too
    pub(crate) leaked: bool,
}

// Three values as one: the first joined with what the others make.
fn joined<P: Provider>(
    provider: &mut P,
    [first, second, third]: [Handle; 3],
) -> Result<Handle, ProviderError> {
    let rest = provider.join(second, third)?;
    provider.join(first, rest)
}

// A leg as a value: its three numbers, joined.
fn leg_value<P: Provider>(provider: &mut P, leg: Leg) -> Result<Handle, ProviderError> {
    let number = usize::from(Kind::Number);
    let buoy = provider.atom(number, leg.buoy)?;
    let course = provider.atom(number, leg.course)?;
    let speed = provider.atom(number, leg.speed)?;
    joined(provider, [buoy, course, speed])
}

// The plan as a value: its legs, joined.
fn plan_value<P: Provider>(provider: &mut P) -> Result<Handle, ProviderError> {
    let first = leg_value(provider, LEGS[0])?;
    let second = leg_value(provider, LEGS[1])?;
    let third = leg_value(provider, LEGS[2])?;
    joined(provider, [first, second, third])
}

// Whether a sealed value opens to the plan. An opener that is wrong for it opens nothing.
fn opens_to<P: Provider>(
    provider: &mut P,
    sealed: Handle,
    opener: Handle,
    plan: Handle,
) -> Result<bool, ProviderError>
    ensures { OpensTo P.algebra P.meaning provider.old sealed opener plan result provider.new }
{
    match provider.open(sealed, opener) {
        Ok(opened) => Ok(provider.same(plan, opened)),
        Err(ProviderError::Wrong) => Ok(false),
        Err(ProviderError::Full) => Err(ProviderError::Full),
    }
}

// Seals the plan under a shared key, opens it with that key and tries another. Wherever it is not stopped, the plan arrives.
pub(crate) fn rehearse<P: Provider>(provider: &mut P) -> Result<Rehearsal, ProviderError>
    ensures { IfOk result (λ done. (done.tried ≡ true) × (done.arrived ≡ true)) }
{
    let plan = plan_value(provider)?;
    let shared = usize::from(Kind::Shared);
    let key = provider.atom(shared, 7)?;
    let again = reopen(provider, plan, key)?;
    let tried = provider.same(plan, again);
    let sealed = provider.seal(plan, key)?;
    let opened = provider.open(sealed, key)?;
    let arrived = provider.same(plan, opened);
    let other = provider.atom(shared, 8)?;
    let leaked = opens_to(provider, sealed, other, plan)?;
    Ok(Rehearsal {
        sealed,
        tried,
        arrived,
        leaked,
    })
}
