//! What policies look at in an object.
ghost use Rattle.std.specs.Prelude.{◌≡◌, option_copied};
ghost use Rattle.mf_policy.specs.Answer as spec;

use mf_cred::FileView;
use mf_item::ObjectView;

/// The attributes of the object; all zero where there is none.
pub fn attributes_of(object: Option<&ObjectView>) -> FileView
    ensures { result ≡ spec.attributes_of (option_copied object.entry) }
{
    match object {
        Some(view) => view.file,
        None => FileView::default(),
    }
}
