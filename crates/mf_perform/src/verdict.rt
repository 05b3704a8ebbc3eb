//! The policies' verdict on a plan.
ghost use Rattle.std.specs.Prelude.{◌≡◌};
ghost use Rattle.mf_perform.specs.Verdict as spec;

use mf_errno::{Errno, Module};
use mf_list::Listed;
use mf_plan::Plan;
use mf_policy::Policy;

/// A denial: the number of the denied check, from 1, the errno, and the policy that decided it. No
/// policy decides a check of a privilege.
#[derive(Clone, Copy)]
pub struct Denial {
    pub item: u8,
    pub errno: Errno,
    pub by: Option<Module>,
}

/// The policies' verdict on a plan: the first denial, if a check is denied.
#[derive(Clone, Copy)]
pub struct Verdict {
    pub denied: Option<Denial>,
}

/// Asks the policies for each check of the plan in turn, and stops at the first that is denied.
pub fn verdict_of<P: Policy>(list: &Listed<'_, P>, plan: &Plan) -> Verdict
    ensures { result ≡ spec.verdict_of list.now plan.now }
{
    let mut number = 1;
    for place in 0..plan.len() {
        let answer = list.ask(&plan.item(place));
        match answer.errno {
            Errno::Success => {}
            errno => {
                return Verdict {
                    denied: Some(Denial {
                        item: number,
                        errno,
                        by: answer.by,
                    }),
                };
            }
        }
        number += 1;
    }
    Verdict { denied: None }
}
