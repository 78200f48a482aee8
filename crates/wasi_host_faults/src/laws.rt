//! A theorem about the faults that `FailAt` injects.
ghost use Rattle.wasi_host_faults.specs.Faults.{FaultsAreFew};

/// Over a host that never fails by itself, as `MemTree`, no more faults are counted than the list has, and none before
/// the first call.
pub fn faults_are_few()
    ensures few { FaultsAreFew }
{}
