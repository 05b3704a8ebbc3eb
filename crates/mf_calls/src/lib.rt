//! What a script says: its types, their limits, which scripts are well formed, and the script of a generated load.
#![tactic(auto)]

mod boots;
mod boxed;
mod generated;
mod limits;
mod names;
mod paths;
mod script;
mod tunable;

pub use boots::{is_booted, may_ask_for};
pub use boxed::Boxed;
pub use generated::generate;
pub use limits::{
    ALL_LINES_LIMIT, BOOT_LIMIT, FILE_LIMIT, LINE_LIMIT, MODE_LIMIT, RULE_LIST_LIMIT, STEP_LIMIT,
    TASK_LIMIT, UID_MAX,
};
pub use mf_cred::{DIRECTORY_MODE, FILE_MODE};
pub use mf_names::{
    Bytes, CONTENT_LIMIT, Components, Listing, NAME_LIMIT, Name, NameList, PATH_LIMIT, Path,
    SCRIPT_LIMIT, Word,
};
pub use names::{is_component, is_name};
pub use paths::{are_same_paths, directory_of, is_same_path};
pub use script::{Call, FileLine, Line, Script, Step, StepKind, Task};
pub use tunable::revocation_name;
