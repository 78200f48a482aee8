//! A script that has begun.
use std::alloc::{AllocError, Global};
use wasi_form::{Shown, read_script};
use wasi_guest::{Answers, Call, GuestMemory, slice_at};
use wasi_host_faults::FailAt;
use wasi_p1::{RunError, WasiP1Ctx, run_calls};
use wasi_report::{Outcome, report};
use wasi_setup::begin;
use wasi_tree::MemTree;

/// A script that has begun, and the calls that are left to be made.
#[derive(Drop)]
pub struct Begun {
    alloc: Global,
    memory: GuestMemory,
    context: WasiP1Ctx<FailAt<MemTree>>,
    fuel: u64,
    calls: Vec<Call>,
    show: Vec<Shown>,
}

/// What became of a script: its answers; its report, with no answers, nothing shown of the memory and no nodes touched;
/// and the bytes of the memory.
#[derive(Drop)]
pub struct Ended {
    answers: Answers,
    report: Vec<u8>,
    memory: Vec<u8>,
}

impl Ended {
    /// Whether it is what became of another run too, whose answers from a place on are the same.
    pub fn agrees(&self, whole: &Ended, place: usize) -> bool {
        ends(&whole.answers, place, &self.answers)
            && self.report.as_slice() == whole.report.as_slice()
            && self.memory.as_slice() == whole.memory.as_slice()
    }
}

// Whether the last answers, from a place on, are these.
fn ends(whole: &Answers, place: usize, last: &Answers) -> bool {
    if whole.len().saturating_sub(place) != last.len() {
        return false;
    }
    for i in 0..last.len() {
        if whole.get(place.saturating_add(i)) != last.get(i) {
            return false;
        }
    }
    true
}

// The calls after the first ones.
fn without_first(alloc: Global, calls: &Vec<Call>, count: usize) -> Result<Vec<Call>, AllocError> {
    let left = calls.as_slice().get(count..).unwrap_or(&[]);
    left.to_vec(alloc)
}

impl Begun {
    /// A script in which nothing was called yet, if it can be run.
    pub fn of(alloc: Global, script: &[u8]) -> Result<Option<Begun>, AllocError> {
        match read_script(alloc, alloc, script) {
            Ok(script) => {
                let begun = begin(alloc, script)?;
                Ok(Some(Begun {
                    alloc,
                    memory: begun.memory,
                    context: WasiP1Ctx::of(begun.context),
                    fuel: begun.fuel,
                    calls: begun.calls,
                    show: begun.show,
                }))
            }
            Err(_) => Ok(None),
        }
    }

    /// Makes the calls that are left.
    pub fn run(&mut self) -> Result<Answers, RunError> {
        let bytes = self.memory.bytes_mut();
        run_calls(self.alloc, &mut self.context, bytes, self.fuel, &self.calls)
    }

    /// Lets go of the first calls that are left.
    pub fn skip(&mut self, count: usize) -> Result<(), AllocError> {
        self.calls = without_first(self.alloc, &self.calls, count)?;
        Ok(())
    }

    // The bytes of each range that is to be shown. A script has none outside of its memory.
    fn shown(&self) -> Result<Vec<Vec<u8>>, AllocError> {
        let mut list = Vec::new(self.alloc);
        for range in &self.show {
            if let Some(bytes) = slice_at(self.memory.bytes(), range.ptr, range.len) {
                list.push(bytes.to_vec(self.alloc)?)?;
            }
        }
        Ok(list)
    }

    // The report of how it stands, with these answers, these bytes of its memory, and these nodes touched.
    fn rendered(
        &self,
        answers: Answers,
        shown: Vec<Vec<u8>>,
        touched: Vec<u64>,
    ) -> Result<Vec<u8>, AllocError> {
        let context = &self.context;
        let outcome = Outcome {
            answers,
            shown,
            stdout: context.stdout().to_vec(self.alloc)?,
            stderr: context.stderr().to_vec(self.alloc)?,
            touched,
        };
        report(self.alloc, &outcome, context.host().inner())
    }

    /// Makes the calls that are left: their report.
    pub fn report(&mut self) -> Result<Vec<u8>, AllocError> {
        let Ok(answers) = self.run() else {
            return Err(AllocError);
        };
        let shown = self.shown()?;
        let touched = self.context.host().inner().touched(self.alloc)?;
        self.rendered(answers, shown, touched)
    }

    /// Makes the calls that are left: what became of it.
    pub fn end(&mut self) -> Result<Ended, AllocError> {
        let Ok(answers) = self.run() else {
            return Err(AllocError);
        };
        let none = Answers::with_room(self.alloc, 0)?;
        let report = self.rendered(none, Vec::new(self.alloc), Vec::new(self.alloc))?;
        let memory = self.memory.bytes().to_vec(self.alloc)?;
        Ok(Ended {
            answers,
            report,
            memory,
        })
    }
}
