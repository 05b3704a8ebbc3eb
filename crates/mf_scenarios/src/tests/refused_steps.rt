//! Steps that aren't in turn.

use crate::tests::cases::{Case, run_cases};
use crate::tests::stepping::STEPPED;
use std::alloc::AllocError;

/// Each with a step that names no task, or isn't in turn.
const REFUSED: &[Case] = &[
    Case {
        name: "no task, where a matrix is asked for",
        words: &["step", "matrix"],
        script: "boot mac_biba\ntask t uid 0 gid 0 label -\nread /f\nend\nsteps\nenter t\nenter u\nend\n",
        status: 7,
        text: "macsim: step 2 refused\n",
        ..STEPPED
    },
    Case {
        name: "no task, where chains are asked for",
        words: &["step", "chains"],
        script: "boot mac_biba\ntask t uid 0 gid 0 label -\nread /f\nend\nsteps\nenter t\nenter u\nend\n",
        status: 7,
        text: "macsim: step 2 refused\n",
        ..STEPPED
    },
    Case {
        name: "no task",
        script: "task t uid 0 gid 0 label -\nread /f\nend\ntask l uid 0 gid 0 label -\nkldload mac_biba\nend\nsteps\nenter u\nend\n",
        status: 7,
        text: "macsim: step 1 refused\n",
        ..STEPPED
    },
    Case {
        name: "an entry is open",
        script: "task t uid 0 gid 0 label -\nread /f\nend\ntask l uid 0 gid 0 label -\nkldload mac_biba\nend\nsteps\nenter t\nenter t\nend\n",
        status: 7,
        text: "macsim: step 2 refused\n",
        ..STEPPED
    },
    Case {
        name: "a plan before the entry",
        script: "task t uid 0 gid 0 label -\nread /f\nend\ntask l uid 0 gid 0 label -\nkldload mac_biba\nend\nsteps\nplan t\nend\n",
        status: 7,
        text: "macsim: step 1 refused\n",
        ..STEPPED
    },
    Case {
        name: "no plan is kept",
        script: "task t uid 0 gid 0 label -\nread /f\nend\ntask l uid 0 gid 0 label -\nkldload mac_biba\nend\nsteps\nenter t\ndone t\nend\n",
        status: 7,
        text: "macsim: step 2 refused\n",
        ..STEPPED
    },
    Case {
        name: "the call isn't done",
        script: "task t uid 0 gid 0 label -\nread /f\nend\ntask l uid 0 gid 0 label -\nkldload mac_biba\nend\nsteps\nenter t\nplan t\nleave t\nend\n",
        status: 7,
        text: "macsim: step 3 refused\n",
        ..STEPPED
    },
    Case {
        name: "the plan went with its commit that was stale",
        script: "boot mac_biba\nfile /f reg uid 0 gid 0 mode 644 label biba/high text hi\ntask a uid 0 gid 0 label biba/high\nread /f\nend\ntask b uid 0 gid 0 label biba/high\nsetfmac biba/low /f\nend\nsteps\nenter a\nplan a\nenter b\nplan b\ndone b\ndone a\ndone a\nend\n",
        status: 7,
        text: "macsim: step 7 refused\n",
        ..STEPPED
    },
    Case {
        name: "the call is done",
        script: "task t uid 0 gid 0 label -\nread /f\nend\ntask l uid 0 gid 0 label -\nkldload mac_biba\nend\nsteps\nenter t\nplan t\ndone t\nplan t\nend\n",
        status: 7,
        text: "macsim: step 4 refused\n",
        ..STEPPED
    },
    Case {
        name: "no more lines",
        script: "task t uid 0 gid 0 label -\nread /f\nend\ntask l uid 0 gid 0 label -\nkldload mac_biba\nend\nsteps\nchange l\nchange l\nend\n",
        status: 7,
        text: "macsim: step 2 refused\n",
        ..STEPPED
    },
    Case {
        name: "a change is no entry",
        script: "task t uid 0 gid 0 label -\nread /f\nend\ntask l uid 0 gid 0 label -\nkldload mac_biba\nend\nsteps\nenter l\nend\n",
        status: 7,
        text: "macsim: step 1 refused\n",
        ..STEPPED
    },
    Case {
        name: "an entry is no change",
        script: "task t uid 0 gid 0 label -\nread /f\nend\ntask l uid 0 gid 0 label -\nkldload mac_biba\nend\nsteps\nchange t\nend\n",
        status: 7,
        text: "macsim: step 1 refused\n",
        ..STEPPED
    },
];

#[test]
fn steps_are_refused(rt: HostRuntime) -> Result<(), AllocError> {
    run_cases(&rt, rt.alloc(), REFUSED)
}
