//! Where tests put their files.
use std::env;
use std::test::Fail;

/// A name in the folder for files that nobody keeps; no name is the folder's own.
pub fn name_in_temp(rt: &HostRuntime, name: &str) -> Result<String, Fail> {
    let folder = env::temp_dir(rt)?;
    let made = format!(in rt.alloc(); "{}/{name}", folder.display());
    drop(folder);
    Ok(made?)
}
