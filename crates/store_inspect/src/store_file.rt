//! The bytes of a store file.

ghost use Rattle.std.specs.Prelude.{◌≤◌, length};
ghost use Rattle.history_model.specs.Stored.{max_file};

/// How many bytes a file has, and its bytes up to the limit of a store.
#[derive(Drop)]
pub(crate) struct StoreFile {
    pub size: u64,
    pub front: Vec<u8>,
    ghost short: { length front.items ≤ max_file },
}
