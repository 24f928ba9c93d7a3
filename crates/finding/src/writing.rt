// The kept lines are written into the free end of a request.
ghost use Rattle.finding.specs.Asking.{lines_of_kept, request_length, with_sheet};
ghost use Rattle.finding.specs.Growing.{bare_head};
ghost use Rattle.finding_keeping.specs.Marks.{picked};
ghost use Rattle.promise.specs.Promise.{Bytes, request_bytes};
ghost use Rattle.promise.specs.declared.heads.Head.{Head as RequestHead};
ghost use Rattle.registry.specs.Numbered.{certificates_of};
ghost use Rattle.sheets.specs.Sheets.{Line};
ghost use Rattle.std.specs.Prelude.{◌≡◌, ◌≤◌, List, ◌++◌, length, take, drop, Ok, IfOk, vec_len};
ghost use Rattle.wire.specs.Numbers.{bytes};

use crate::kept_lines::KeptLines;
use finding_bytes::{marked_bytes, marked_lines, write_marked};
use promise::heads::HEAD;
use registry::Registry;
use std::alloc::{AllocError, Global};

// Writes how many lines follow the head.
fn write_count(request: &mut [u8], count: u32)
    requires { 8 ≤ length request.old }
    ensures { request.new ≡ take 4 request.old ++ (bytes 4 count ++ drop 8 request.old) }
{
    // Not one with `write_u16` of finding_bytes: both know that there is room; a public function requires nothing, so one for both would have to test for it.
    request[4..HEAD].copy_from_slice(&count.to_be_bytes());
}

impl KeptLines {
    // How many lines are kept, as the head has it.
    fn count(&self) -> u32
        ensures { (lines : List Line) → length lines ≡ vec_len self.now.marks → result ≡ length (picked self.now.marks.items lines) }
    {
        marked_lines(self.marks.as_slice()) as u32
    }

    // How many bytes a request has with the kept lines.
    pub(crate) fn needed(&self, registry: &Registry) -> usize
        ensures { result ≡ request_length (lines_of_kept (certificates_of registry.now) self.now) }
    {
        HEAD + marked_bytes(registry, self.found.as_slice(), self.marks.as_slice())
    }

    // Writes the kept lines behind the head, and how many there are.
    pub(crate) fn write(&self, registry: &Registry, request: &mut [u8])
        requires { request_length (lines_of_kept (certificates_of registry.now) self.now) ≤ length request.old }
        ensures { request.new ≡ with_sheet request.old (lines_of_kept (certificates_of registry.now) self.now) }
    {
        // it is written, since there is room for it
        let _ = write_marked(
            registry,
            self.found.as_slice(),
            self.marks.as_slice(),
            &mut request[HEAD..],
        );
        write_count(request, self.count());
    }

    // The kept lines behind the head of a request.
    pub(crate) fn behind(
        &self,
        heap: Global,
        registry: &Registry,
        head: &[u8],
    ) -> Result<Vec<u8>, AllocError>
        ensures { Bytes head.now → IfOk result (λ whole. (h : RequestHead) → bare_head head.now ≡ Ok h → whole.items ≡ request_bytes h.house h.right (lines_of_kept (certificates_of registry.now) self.now)) }
    {
        let mut request = Vec::from_slice(heap, head)?;
        request.resize(self.needed(registry), 0)?;
        self.write(registry, request.as_mut_slice());
        Ok(request)
    }
}
