// Laws about captures.

ghost use Rattle.std.specs.Prelude.{◌≡◌, ◌++◌, ℕ, List, Ok, Err};
ghost use Rattle.captures.specs.declared.error.CaptureError.{CaptureError};
ghost use Rattle.captures.specs.declared.step.Step.TheVariants.{More};
ghost use Rattle.captures.specs.Reading.{Reading, Progress, step_at, end_of};
ghost use Rattle.captures.specs.declared.pcap.TimeUnit.{TimeUnit};
ghost use Rattle.captures.specs.Writing.{Record, AllFit, file_of, contents_again};
ghost use Rattle.captures.specs.Contents.{contents, Call, AreCalls, bytes_of, all_ahead, contents_of, ending};

/// What calls gave are the first packets of the file, whatever comes after them, however its bytes came.
pub fn given_come_first()
    ensures { (calls : List Call) (reading last : Reading) (unread left more : List ℕ) → AreCalls calls reading unread last left
        → contents_of reading (unread ++ (bytes_of calls ++ more)) ≡ all_ahead calls unread (contents_of last (left ++ more)) }
{}

/// A fault is the file's, whatever comes after it.
pub fn faults_stay()
    ensures { (reading : Reading) (bytes more : List ℕ) (fault : CaptureError) → step_at reading bytes ≡ Err fault → contents_of reading (bytes ++ more) ≡ ending (Err fault) }
{}

/// Where more bytes are needed and none come, the file has ended as `end` says.
pub fn ends_as_said()
    ensures { (reading after : Reading) (bytes : List ℕ) (len : ℕ) → step_at reading bytes ≡ Ok (record { step = More len; after = after }) → contents_of reading bytes ≡ ending (end_of reading bytes) }
{}

/// A file that was written is read: the same messages, at their times in whole units, and no fault.
pub fn what_is_written_is_read()
    ensures { (unit : TimeUnit) (all : List Record) → AllFit all → contents (file_of unit all) ≡ contents_again unit all }
{}
