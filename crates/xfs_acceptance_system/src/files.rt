//! Files and folders of a test: whether each call passes.

use std::fs;
use std::fs::Permissions;
use std::os::unix::fs::PermissionsExt;
use std::test::Fail;

/// A new folder of a test.
pub fn folder_of(rt: &HostRuntime, name: &str) -> Result<String, Fail> {
    let temporary = std::env::temp_dir(rt)?;
    let path = format!(in rt.alloc(); "{}/xfs_folder_calls_{name}", temporary.display())?;
    let _removed = fs::remove_dir_all(rt, &path);
    fs::create_dir(rt, &path)?;
    Ok(path)
}

pub fn in_folder(rt: &HostRuntime, path: &str, file: &str) -> Result<String, Fail> {
    Ok(format!(in rt.alloc(); "{path}/{file}")?)
}

pub fn writes(rt: &HostRuntime, path: &str, bytes: &[u8]) -> bool {
    fs::write(rt, path, bytes).is_ok()
}

pub fn holds(rt: &HostRuntime, path: &str, bytes: &[u8]) -> bool {
    match fs::read(rt, path) {
        Ok(read) => read.as_slice() == bytes,
        Err(_) => false,
    }
}

pub fn has_mode(rt: &HostRuntime, path: &str, mode: u32) -> bool {
    fs::set_permissions(rt, path, Permissions::from_mode(mode)).is_ok()
}

pub fn makes_folder(rt: &HostRuntime, path: &str) -> bool {
    fs::create_dir(rt, path).is_ok()
}

pub fn removes(rt: &HostRuntime, path: &str) -> bool {
    fs::remove_file(rt, path).is_ok()
}

pub fn removes_folder(rt: &HostRuntime, path: &str) -> bool {
    fs::remove_dir_all(rt, path).is_ok()
}
