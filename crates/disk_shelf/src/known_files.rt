// The regular files that a shelf has read or begun, each under the name that it had.
ghost use Rattle.std.specs.Prelude.{◌≡◌, ◌↔◌, ℕ, List, [], IfSome, IsSome, OnErr, OnOk, IsTrue};
ghost use Rattle.std.specs.Fs.{IsFile, file_type};
ghost use Rattle.disk_shelf.specs.Disk.{has_file, has_name, has_other_name};

use std::alloc::{AllocError, Global};
use std::fs::Metadata;
use std::os::unix::fs::MetadataExt;

/// A file of the system, whatever it is called: its device, and its number there.
#[derive(Clone, Copy, PartialEq, Eq, Debug)]
pub struct FileId {
    device: u64,
    number: u64,
}

impl FileId {
    /// The file that the system describes, if it is a regular one. In another, as a terminal or a
    /// pipe, nothing stands that could be lost.
    pub fn of(metadata: &Metadata) -> Option<FileId>
        ensures { IsSome result ↔ IsFile (file_type metadata.now) }
    {
        if !metadata.is_file() {
            return None;
        }
        Some(FileId {
            device: metadata.dev(),
            number: metadata.ino(),
        })
    }
}

/// A file under a name.
#[derive(Drop)]
pub struct KnownFile {
    id: FileId,
    name: String,
}

/// The files that are known.
#[derive(Drop)]
pub struct KnownFiles {
    files: Vec<KnownFile>,
}

impl KnownFiles {
    /// None yet.
    pub fn new(alloc: Global) -> Self
        ensures { result.files.items ≡ [] }
    {
        KnownFiles {
            files: Vec::new(alloc),
        }
    }

    /// Whether a file is known under another name than this one.
    pub fn has_other_name(&self, id: FileId, name: &str) -> bool
        ensures { result ≡ has_other_name id name.now self.now.files.items }
    {
        self.files
            .iter()
            .any(|file| file.id == id && file.name.as_str() != name)
    }

    /// Whether a file is known, under whichever name.
    pub fn has(&self, id: FileId) -> bool
        ensures { result ≡ has_file id self.now.files.items }
    {
        self.files.iter().any(|file| file.id == id)
    }

    // Whether a file is known under this name.
    fn has_name(&self, id: FileId, name: &str) -> bool
        ensures { result ≡ has_name id name.now self.now.files.items }
    {
        self.files
            .iter()
            .any(|file| file.id == id && file.name.as_str() == name)
    }

    /// Knows a file under a name from now on. Without memory nothing changes.
    pub fn note(&mut self, alloc: Global, id: FileId, name: &str) -> Result<(), AllocError>
        ensures known { OnOk result (IsTrue (has_name id name.now self.new.files.items)) }
        ensures kept { (other : FileId) (called : List ℕ)
            → IsTrue (has_name other called self.old.files.items)
            → IsTrue (has_name other called self.new.files.items) }
        ensures err { OnErr result (self.new.files.items ≡ self.old.files.items) }
    {
        if self.has_name(id, name) {
            return Ok(());
        }
        let name = String::from_str(alloc, name)?;
        self.files.push(KnownFile { id, name })?;
        Ok(())
    }

    /// Knows a file that was opened under a name, where it is a regular one.
    pub fn note_opened(
        &mut self,
        alloc: Global,
        id: Option<FileId>,
        name: &str,
    ) -> Result<(), AllocError>
        ensures known { OnOk result
            (IfSome id (λ id. IsTrue (has_name id name.now self.new.files.items))) }
        ensures kept { (other : FileId) (called : List ℕ)
            → IsTrue (has_name other called self.old.files.items)
            → IsTrue (has_name other called self.new.files.items) }
        ensures err { OnErr result (self.new.files.items ≡ self.old.files.items) }
    {
        match id {
            Some(id) => self.note(alloc, id, name),
            None => Ok(()),
        }
    }
}
