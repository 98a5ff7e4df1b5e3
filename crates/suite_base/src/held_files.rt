//! Files over memory, of which one at a time is open: what both fakes of `Files` keep.

ghost use Rattle.std.specs.Prelude.{◌≡◌, ℕ, ◌<◌, ◌≤◌, Bool, true, false, Some, None, [], ◌∷◌, length, take, drop, min, IsTrue, MatchOption};
ghost use Rattle.suite_base.specs.Outside.{bytes_at, bytes_under};

use crate::lists::List;
use crate::texts::Text;

/// Names and bytes of files, whether one is open, its place in the list, and how far it was read.
#[derive(Debug, Drop)]
pub struct HeldFiles {
    files: List<(Text, Text)>,
    is_open: bool,
    file: usize,
    at: usize,
    ghost within: { at ≤ length (bytes_at files file) },
}

impl HeldFiles {
    /// The files, none of them open.
    pub fn new(files: List<(Text, Text)>) -> HeldFiles
        ensures held { result.files ≡ files }
        ensures closed { result.is_open ≡ false }
    {
        HeldFiles {
            files,
            is_open: false,
            file: 0,
            at: 0,
        }
    }

    /// Opens the first file of this name at its first byte, and says whether there is one.
    pub fn open(&mut self, name: &str) -> bool
        ensures opened { self.new.is_open ≡ result }
        ensures found { IsTrue result → bytes_under name.now self.old.files ≡ Some (drop self.new.at (bytes_at self.new.files self.new.file)) }
        ensures missing { result ≡ false → bytes_under name.now self.old.files ≡ None }
        ensures file { result ≡ false → self.new.file ≡ self.old.file }
        ensures at { result ≡ false → self.new.at ≡ self.old.at }
        ensures held { self.new.files ≡ self.old.files }
    {
        match find_file(self.files.as_slice(), name) {
            Some(file) => {
                self.at = 0;
                self.file = file;
                self.is_open = true;
                true
            }
            None => {
                self.is_open = false;
                false
            }
        }
    }

    /// Moves the next bytes of the open file into `buf`, and answers how many.
    pub fn read(&mut self, buf: &mut [u8]) -> usize
        ensures within { result ≤ length buf.old }
        ensures taken { take result buf.new ≡ take result (drop self.old.at (bytes_at self.old.files self.old.file)) }
        ensures left { drop self.new.at (bytes_at self.new.files self.new.file) ≡ drop result (drop self.old.at (bytes_at self.old.files self.old.file)) }
        ensures least { result ≡ min (length (drop self.old.at (bytes_at self.old.files self.old.file))) (length buf.old) }
        ensures stays { self.new.is_open ≡ self.old.is_open }
        ensures held { self.new.files ≡ self.old.files }
    {
        let left = &file_bytes(self.files.as_slice(), self.file)[self.at..];
        let n = left.len().min(buf.len());
        buf[..n].copy_from_slice(&left[..n]);
        self.at += n;
        n
    }

    /// Closes the open file.
    pub fn close(&mut self)
        ensures closed { self.new.is_open ≡ false }
        ensures file { self.new.file ≡ self.old.file }
        ensures at { self.new.at ≡ self.old.at }
        ensures held { self.new.files ≡ self.old.files }
        ensures same { self.old.is_open ≡ false → self.new ≡ self.old }
    {
        if self.is_open {
            self.is_open = false;
        }
    }
}

// The bytes of the file at place `k`; none where there is no such place.
fn file_bytes(files: &[(Text, Text)], k: usize) -> &[u8]
    ensures { result.now ≡ bytes_at files.now k }
{
    if k < files.len() {
        files[k].1.bytes()
    } else {
        &[]
    }
}

// The place of the first file of this name.
fn find_file(files: &[(Text, Text)], name: &str) -> Option<usize>
    ensures { MatchOption result (bytes_under name.now files.now ≡ None) (λ k. bytes_under name.now files.now ≡ Some (bytes_at files.now k)) }
{
    for k in 0..files.len() {
        if name.as_bytes() == files[k].0.bytes() {
            return Some(k);
        }
    }
    None
}
