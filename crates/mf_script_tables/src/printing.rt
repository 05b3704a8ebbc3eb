//! Canonical texts, and scripts that are printed and read back.

ghost use Rattle.std.specs.Prelude.{◌≤◌};

use crate::reading::{CALLS, GOOD_SCRIPTS, script_of, wants};
use mf_calls::{LINE_LIMIT, Script, TASK_LIMIT};
use mf_script::{ScriptError, generate};
use mf_spelling::print_script;
use std::alloc::{AllocError, Global};
use std::process::Abort;

/// Scripts, each with its canonical text.
const CANONICAL: &[(&str, &str)] = &[
    ("", ""),
    ("# nothing\n\n \t\n", ""),
    ("steps\n# none\nend", ""),
    (
        "\t boot \t mac_mls \nboot mac_biba",
        "boot mac_mls\nboot mac_biba\n",
    ),
    (
        "file /a dir uid 007 gid 0 mode 00644 label -",
        "file /a dir uid 7 gid 0 mode 644 label -\n",
    ),
    (
        "file /a reg uid 0 gid 4294967295 mode 0 label - text \\41#\\5C\\20",
        "file /a reg uid 0 gid 4294967295 mode 0 label - text A#\\5c\\20\n",
    ),
    (
        "boot mac_biba\nfile /a.b reg uid 0 gid 0 mode 7777 label biba/eq",
        "boot mac_biba\nfile /a.b reg uid 0 gid 0 mode 7777 label biba/equal\n",
    ),
    (
        "boot mac_mls\nboot mac_biba\ntask t uid 1 gid 02,0,2 label mls/lo,biba/010:3+2+03(lo-hi)\nend",
        "boot mac_mls\nboot mac_biba\ntask t uid 1 gid 2,0,2 label biba/10:2+3(low-high),mls/low\nend\n",
    ),
    (
        "boot mac_partition\ntask t uid 0 gid 0 label partition/00\n  exit\n# gone\n@c\tread /\nend",
        "boot mac_partition\ntask t uid 0 gid 0 label partition/none\nexit\n@c read /\nend\n",
    ),
    (
        "boot mac_lomac\nfile /a reg uid 0 gid 0 mode 0 label lomac/hi,lomac/05\ntask t uid 0 gid 0 label lomac/eq\nend",
        "boot mac_lomac\nfile /a reg uid 0 gid 0 mode 0 label lomac/5\ntask t uid 0 gid 0 label lomac/equal\nend\n",
    ),
    (
        "boot mac_partition\nboot mac_lomac\nboot mac_mls\nboot mac_biba\ntask t uid 0 gid 0 label partition/7,lomac/lo,mls/lo,biba/hi\nend",
        "boot mac_partition\nboot mac_lomac\nboot mac_mls\nboot mac_biba\ntask t uid 0 gid 0 label biba/high,mls/low,lomac/low,partition/7\nend\n",
    ),
    (
        "task t uid 0 gid 0 label -\nugidfw set 007 subject uid 5:5 object mode wr\nend",
        "task t uid 0 gid 0 label -\nugidfw set 7 subject uid 5 object mode rw\nend\n",
    ),
    (
        "task t uid 0 gid 0 label -\nend\nsteps\n\n change\tt\n end \n",
        "task t uid 0 gid 0 label -\nend\nsteps\nchange t\nend\n",
    ),
    (
        "boot mac_biba\ntunable security.mac.biba.revocation_enabled=0\n",
        "boot mac_biba\n",
    ),
    (
        "boot mac_mls\nboot mac_biba\n tunable\tsecurity.mac.biba.revocation_enabled=1\nfile /a dir uid 0 gid 0 mode 0 label -",
        "boot mac_mls\nboot mac_biba\ntunable security.mac.biba.revocation_enabled=1\nfile /a dir uid 0 gid 0 mode 0 label -\n",
    ),
    (
        "task t uid 0 gid 0 label -\nopen / rw\nfread 007\nfwrite 00 \\41\n@c close 015\nend",
        "task t uid 0 gid 0 label -\nopen / rw\nfread 7\nfwrite 0 A\n@c close 15\nend\n",
    ),
    (
        "task t uid 0 gid 0 label -\n bind  s tcp 00\nbind s\tudp 065535\n@c bind s tcp 0080\nend",
        "task t uid 0 gid 0 label -\nbind s tcp 0\nbind s udp 65535\n@c bind s tcp 80\nend\n",
    ),
];

fn text_of(alloc: Global, script: &Script) -> Result<String, ScriptError> {
    let mut text = String::new(alloc);
    print_script(alloc, script, &mut text)?;
    Ok(text)
}

/// The canonical text of the script of a short text.
fn canonical(rt: &impl Abort, alloc: Global, text: &str) -> Result<String, ScriptError> {
    let script = script_of(rt, alloc, text)?;
    text_of(alloc, &script)
}

/// The script has this canonical text.
fn is_printed(rt: &impl Abort, alloc: Global, script: &str, text: &str) -> Result<(), ScriptError> {
    let found = canonical(rt, alloc, script)?;
    wants(rt, script, found.as_str() == text);
    Ok(())
}

#[test]
fn canonical_texts(rt: HostRuntime) -> Result<(), ScriptError> {
    for (script, text) in CANONICAL {
        is_printed(&rt, rt.alloc(), script, text)?;
    }
    Ok(())
}

/// The call's line is its canonical text.
fn prints_call(rt: &impl Abort, alloc: Global, call: &str) -> Result<(), ScriptError> {
    let text = format!(in alloc; "task t uid 0 gid 0 label -\n{call}\n@c {call}\nend\n")?;
    is_printed(rt, alloc, text.as_str(), text.as_str())
}

#[test]
fn every_call_is_printed(rt: HostRuntime) -> Result<(), ScriptError> {
    for call in CALLS {
        prints_call(&rt, rt.alloc(), call)?;
    }
    Ok(())
}

/// The script's canonical text is that of a script whose canonical text it is.
fn is_read_back(rt: &impl Abort, alloc: Global, script: &str) -> Result<(), ScriptError> {
    let text = canonical(rt, alloc, script)?;
    is_printed(rt, alloc, text.as_str(), text.as_str())
}

#[test]
fn printed_scripts_are_read_back(rt: HostRuntime) -> Result<(), ScriptError> {
    for script in GOOD_SCRIPTS {
        is_read_back(&rt, rt.alloc(), script)?;
    }
    Ok(())
}

/// The canonical text of the script of a load.
fn load_text(alloc: Global, lines: u32, tasks: u32) -> Result<String, ScriptError>
    requires lines { lines ≤ LINE_LIMIT }
    requires tasks { tasks ≤ TASK_LIMIT }
{
    let load = generate(alloc, lines, tasks)?;
    text_of(alloc, &load)
}

#[test]
fn loads_are_read_back(rt: HostRuntime) -> Result<(), ScriptError> {
    for (lines, tasks) in [(0, 0), (1, 1), (40, 16)] {
        let text = load_text(rt.alloc(), lines, tasks)?;
        is_printed(&rt, rt.alloc(), text.as_str(), text.as_str())?;
    }
    Ok(())
}
