//! What a program sees of the outside.
ghost use Rattle.std.specs.Prelude.{◌≡◌, ℕ, ◌<◌, ◌≤◌, Bool, true, false, List, length, Option, option_map, IfOk, OnOk, OnErr, OnSome, IfSome, IsSome, IsTrue, is_ok, if◌then◌else◌};
ghost use Rattle.cc_ports.specs.Calls.{Call, Opens, Reads, Begins, Gives, with_call};
ghost use Rattle.cc_ports.specs.Moments.{Moment};
ghost use Rattle.cc_ports.specs.Contents.{Contents, with_rest, content_of, after_read, ReadsFrom, after_create, after_give, Rose};

/// An output.
#[derive(Clone, Copy)]
pub enum To {
    Out,
    Err,
    Log,
}

/// A device has failed; the desk's count of such faults has risen.
#[derive(Clone, Copy, PartialEq, Eq)]
pub struct Failed;

/// Files to read, two streams, and a log to write. A call that succeeds raises no count of faults.
pub trait Desk {
    /// What is known of the desk. Neither count of faults ever falls.
    ghost seen: { Self → Moment };

    /// Begins the reading of a file, and ends that of the one before. A name that is not there is a fault of reading.
    /// After a fault nothing is known of the file being read.
    fn open_file(&mut self, name: &str) -> Result<(), Failed>
        ensures opened { OnOk result ((seen self.new).told
            ≡ option_map (λ c. with_rest (content_of c name.now) c) (seen self.old).told) }
        ensures there { OnOk result (IfSome (seen self.old).told (λ c. IsSome (c.files name.now))) }
        ensures failed { OnErr result ((rest : List ℕ)
            × ((seen self.new).told ≡ option_map (with_rest rest) (seen self.old).told)) }
        ensures cause { OnErr result (Rose (seen self.old).reads (seen self.new).reads) }
        ensures begun { (seen self.new).begun ≡ (seen self.old).begun }
        ensures calls { (seen self.new).calls ≡ with_call (Opens name.now) (seen self.old).calls }
        ensures calm { OnOk result (((seen self.new).reads ≡ (seen self.old).reads)
            × ((seen self.new).writes ≡ (seen self.old).writes)) }
        ensures reads_count { (seen self.old).reads ≤ (seen self.new).reads }
        ensures writes_count { (seen self.old).writes ≤ (seen self.new).writes };

    /// Reads the next bytes of the file into the front of the buffer, and answers how many; 0 only at the end of the
    /// file, or where no file is being read. A fault leaves what is left of the file.
    fn read(&mut self, buffer: &mut [u8]) -> Result<usize, Failed>
        requires { 0 < length buffer.old }
        ensures count { IfOk result (λ n. n ≤ length buffer.old) }
        ensures after { (seen self.new).told ≡ option_map (after_read result) (seen self.old).told }
        ensures bytes { IfOk result (λ n. IfSome (seen self.old).told
            (λ c. ReadsFrom c.rest n buffer.new)) }
        ensures cause { OnErr result (Rose (seen self.old).reads (seen self.new).reads) }
        ensures begun { (seen self.new).begun ≡ (seen self.old).begun }
        ensures calls { (seen self.new).calls ≡ with_call (Reads (length buffer.old))
            (seen self.old).calls }
        ensures calm { OnOk result (((seen self.new).reads ≡ (seen self.old).reads)
            × ((seen self.new).writes ≡ (seen self.old).writes)) }
        ensures reads_count { (seen self.old).reads ≤ (seen self.new).reads }
        ensures writes_count { (seen self.old).writes ≤ (seen self.new).writes };

    /// Begins an empty log. A fault leaves the log as it was.
    fn create_file(&mut self, name: &str) -> Result<(), Failed>
        ensures after { (seen self.new).told ≡ option_map (after_create (is_ok result))
            (seen self.old).told }
        ensures begun { (seen self.new).begun ≡ (if is_ok result then true else
            (seen self.old).begun) }
        ensures cause { OnErr result (Rose (seen self.old).writes (seen self.new).writes) }
        ensures calls { (seen self.new).calls ≡ with_call (Begins name.now) (seen self.old).calls }
        ensures calm { OnOk result (((seen self.new).reads ≡ (seen self.old).reads)
            × ((seen self.new).writes ≡ (seen self.old).writes)) }
        ensures reads_count { (seen self.old).reads ≤ (seen self.new).reads }
        ensures writes_count { (seen self.old).writes ≤ (seen self.new).writes };

    /// Appends a front of the bytes to an output, and answers how many, at least one. A fault appends nothing; so a
    /// device that takes nothing is a fault.
    fn give(&mut self, to: To, bytes: &[u8]) -> Result<usize, Failed>
        requires { 0 < length bytes.now }
        ensures some { IfOk result (λ n. 0 < n) }
        ensures count { IfOk result (λ n. n ≤ length bytes.now) }
        ensures after { (seen self.new).told ≡ option_map (after_give to result bytes.now)
            (seen self.old).told }
        ensures begun { (seen self.new).begun ≡ (seen self.old).begun }
        ensures cause { OnErr result (Rose (seen self.old).writes (seen self.new).writes) }
        ensures calls { (seen self.new).calls ≡ with_call (Gives to bytes.now)
            (seen self.old).calls }
        ensures calm { OnOk result (((seen self.new).reads ≡ (seen self.old).reads)
            × ((seen self.new).writes ≡ (seen self.old).writes)) }
        ensures reads_count { (seen self.old).reads ≤ (seen self.new).reads }
        ensures writes_count { (seen self.old).writes ≤ (seen self.new).writes };

    /// Whether what is given to Log is dropped for now, so that it need not be made. It is never so once a log was begun. A desk
    /// that does not say otherwise keeps what is given to it.
    fn drops_log(&self) -> bool
        ensures told { IsTrue result → IfSome (seen self.now).told (λ c. c.keeps ≡ false) }
        ensures begun { IsTrue result → (seen self.now).begun ≡ false }
    {
        false
    }
}
