//! Theorems about the specifications of the calls, and about all runs of calls. A function here has no code: its
//! clauses are the theorems.
ghost use Rattle.wasi_p1_model.specs.PageLaws.{RecordLength, PageLength, PastTheEnd};
ghost use Rattle.wasi_p1_model.specs.PageLaws.{ListingsFit, WholeOfPage, LargePagesHold, PagesInOrder, PagesHaveAll, EmptyPageEnds};
ghost use Rattle.wasi_p1_model.specs.Owners.{LiveStays};
ghost use Rattle.wasi_p1_model.specs.StatesAgree.{ReachIsOne, TurnsAgree, RunsAgree};
ghost use Rattle.wasi_p1_model.specs.RunLaws.{OtherErrorsNeverCome, SpecsAreComplete, RunsAreComplete, RunsAreFunctions, TurnsAreConfined};
ghost use Rattle.wasi_p1_model.specs.Stems.{PermissionsStem};
ghost use Rattle.wasi_p1_model.specs.ReadOnly.{ReadOnlyTurnsLeaveTheTree, ReadOnlyRunsLeaveTheTree};
ghost use Rattle.wasi_p1_model.specs.AppendOnly.{AppendOnlyTurnsAdd, AppendingStays, RunsOnlyGrow, RunsKeepWhatIsApart};
ghost use Rattle.wasi_p1_model.specs.QuotaLaws.{OpenedStays, RunsStayWithinQuotas, QuotasAreCounted};
ghost use Rattle.wasi_p1_model.specs.Validity.{RunsStayValid};
ghost use Rattle.wasi_p1_model.specs.Writing.{WritesAreWhole};
ghost use Rattle.wasi_p1_model.specs.PutBytes.{BytesArePut, FilesAreHeld, PutBytesStand, BytesAreGot, PutBytesAreGot};
ghost use Rattle.wasi_p1_model.specs.DescriptorLaws.{NumbersAreDense, OpensTheLargestClosed, NumbersFit, SeeksAreTold, OffsetsLeavePositions};

use wasi_host::Host;

/// Noninterference of one call: what it answers, and what it does to nodes in the guest's reach, depends only on the
/// guest and on the nodes in its reach.
pub fn turns_agree()
    ensures agree { TurnsAgree }
{}

/// Without faults, a state and a list of calls have one run alone.
pub fn runs_are_functions()
    ensures one_run { RunsAreFunctions }
{}

/// What the clause `spec` of a method implies: a call is answered if it is valid in the state before it and its
/// specification answers it. There are two exceptions: the host failed in the call, or memory ran out in a call that
/// takes some.
pub fn methods_are_complete<H: Host>()
    ensures complete { SpecsAreComplete H.Host }
{}

/// Each call of a run is answered Ok if it is valid in the state before it and its specification answers it, unless the
/// host failed in it.
pub fn valid_calls_are_answered()
    ensures complete { RunsAreComplete }
{}

/// No call of a run is answered an error number outside the 24 that `may_be_answered` lists, of the 38 of `Errno`.
/// These never come: `again`, `already`, `deadlk`, `inprogress`, `msgsize`, `nodev`, `nolck`, `notrecoverable`,
/// `notty`, `nxio`, `pipe`, `rofs`, `txtbsy` and `xdev`.
pub fn other_errors_never_come()
    ensures errnos { OtherErrorsNeverCome }
{}

/// Confinement, which each call keeps: each node that was touched, that a descriptor refers to, or that is in reach,
/// was in reach of a descriptor at the start, or was made since.
pub fn turns_are_confined<H: Host>()
    ensures confined { TurnsAreConfined H.model }
{}

/// Noninterference of runs: from two states that differ only outside the guest's reach, the same calls have the same
/// answers, and the same effects in reach. In two such states the same nodes are in reach.
pub fn runs_agree()
    ensures agree { RunsAgree }
    ensures reach { ReachIsOne }
{}

/// A call leaves the live handles as they were if it leaves the descriptors, and all handles that no descriptor has.
pub fn live_handles_stay()
    ensures stay { LiveStays }
{}

/// Each descriptor has the permissions of the descriptor before the run from which it stems. An opened one stems from
/// the directory through which it was opened; every other stems from itself.
pub fn permissions_stem()
    ensures stem { PermissionsStem }
{}

/// A call that names a read-only descriptor leaves the tree as it was, whatever it answers, and also if the host
/// failed.
pub fn read_only_turns_leave_the_tree()
    ensures leave { ReadOnlyTurnsLeaveTheTree }
{}

/// A guest whose directories and files are all read-only leaves the tree as it was, however often the host fails.
pub fn read_only_runs_leave_the_tree()
    ensures leave { ReadOnlyRunsLeaveTheTree }
{}

/// A call that names an append-only descriptor only adds, whatever it answers, and also if the host failed. It makes a
/// file, a directory or a link, or adds a name, where that name was free in its directory; or it adds bytes at a file's
/// end.
///
/// It holds of a guest whose append-only files are in append mode. `path_open` opens them so, and `fd_fdstat_set_flags`
/// keeps them so.
pub fn append_only_turns_add()
    ensures add { AppendOnlyTurnsAdd }
{}

/// What runs keep of a tree if all directories of the guest are append-only or read-only, however often the host fails.
/// Each name still leads to the same node. The bytes of a file at the start are the first of its bytes at the end.
/// Links keep their texts, and no bits or times change; a new node has those of its making.
///
/// A guest that has read-write directories or files too keeps this of each node that can't be reached from them, in a
/// valid tree. It is a premise that no directory can be reached both from those and from an append-only one. Otherwise
/// a link made through the second would give a file to the first.
pub fn append_only_runs_keep()
    ensures appends { AppendingStays }
    ensures grows { RunsOnlyGrow }
    ensures apart { RunsKeepWhatIsApart }
{}

/// A run makes no more nodes, and makes files longer by no more bytes, than the quota leaves at its start. It holds
/// whatever the guest calls, and however often the host fails. It is a premise that files are written as they were
/// opened: `path_open` opens them so, and each call keeps them so.
pub fn runs_stay_within_quotas()
    ensures opened { OpenedStays }
    ensures within { RunsStayWithinQuotas }
{}

/// Each call that is answered Ok counts what it makes and grows, and a refused one counts nothing. If the host failed
/// in it, it does either. The quota itself stays.
pub fn quotas_are_counted()
    ensures counted { QuotasAreCounted }
{}

/// The numbers of live and closed descriptors are together those below a bound, which never exceeds how many
/// descriptors may be live. A new descriptor takes the largest closed number, if there is one.
pub fn descriptor_numbers()
    ensures dense { NumbersAreDense }
    ensures largest { OpensTheLargestClosed }
    ensures fit { NumbersFit }
{}

/// `fd_tell` answers what `fd_seek` answered. Reads and writes at an offset leave all positions.
pub fn positions()
    ensures sought { SeeksAreTold }
    ensures offsets { OffsetsLeavePositions }
{}

/// How many bytes a record of a listing has, and a page of records. From the last record's cookie on a page is empty.
pub fn records_and_pages_have_lengths()
    ensures one { RecordLength }
    ensures page { PageLength }
    ensures past { PastTheEnd }
{}

/// A page has the next records of the listing whole, as many as the buffer has room for. Pages that each resume at the
/// `d_next` of the last whole record give each entry once, in the order of the listing. They give all entries if each
/// page has a whole record until none is left; a buffer with room for the largest record does that. An empty page of a
/// buffer that isn't empty ends the listing.
///
/// It holds of a listing whose numbers fit the fields of a record, as those of each directory of a valid tree do.
pub fn pages_list_each_entry_once()
    ensures fit { ListingsFit }
    ensures whole { WholeOfPage }
    ensures held { LargePagesHold }
    ensures order { PagesInOrder }
    ensures everything { PagesHaveAll }
    ensures ends { EmptyPageEnds }
{}

/// A write that is answered Ok puts all bytes of its first buffer that isn't empty into the file: at its position, or
/// in append mode at its end.
pub fn writes_are_whole()
    ensures whole { WritesAreWhole }
{}

/// `fd_pread` reads the bytes that `fd_pwrite` wrote at the same offset, until they are changed. The write's descriptor
/// isn't in append mode; the read may be by another descriptor of the file.
///
/// The write puts its first buffer that isn't empty whole into the file, from the offset on. If the file is open on the
/// host, as the files of a context are on a modelled one, the bytes are then at that offset. The read puts the bytes at
/// its offset into its first buffer that isn't empty, at most 65,536. Neither changes anything else.
pub fn bytes_put_are_got()
    ensures put { BytesArePut }
    ensures held { FilesAreHeld }
    ensures stands { PutBytesStand }
    ensures got { BytesAreGot }
    ensures same { PutBytesAreGot }
{}

/// A run from a valid state leads to a valid state, however often the host fails. A state is valid if its tree is, and
/// if the guest's memory, arguments, environment, random bytes and input consist of bytes.
pub fn runs_stay_valid()
    ensures valid { RunsStayValid }
{}
