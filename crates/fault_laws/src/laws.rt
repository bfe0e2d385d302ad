//! The faults of runs.
ghost use Rattle.fault_laws.specs.RunFaults.{FaultsLaw, RowFaultLaw, ReadFaultLaw};
ghost use Rattle.list_engine.specs.RunLaws.{FaultNamesLaw};

/// What all faults in the rows of the sources and all faults of evaluation of the operators have in common, all
/// faults of a run have, on its streams and as its own. So the run's fault names an operator; and one that isn't
/// of evaluation, as that of a read that failed, stands in the rows of the source that it names.
pub fn run_faults_law()
    ensures faults { FaultsLaw }
    ensures names { FaultNamesLaw }
    ensures rows { RowFaultLaw }
    ensures reads { ReadFaultLaw }
{}
