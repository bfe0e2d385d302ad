ghost use Rattle.network_laws.specs.Carrying.{CarriedFront, CarriedOnce, CarriedProgress, CarriedThere, FlowsCarried, SettledCarried};
ghost use Rattle.network_laws.specs.CountLaws.{ChannelCounts, PlainCounts};
ghost use Rattle.network_laws.specs.Flowing.{JoinedAreInProgress, LegalAreInProgress, LegalJoins, ProgressFlowLaw, SettledFlowLaw};
ghost use Rattle.network_laws.specs.JoinedLaws.{CarriedLaw, FlowLaw, JoinedGivesLaw, JoinedLaw, MeetLaw, PouredLaw, SettledGivesLaw, SettledLaw, WholeLaw};
ghost use Rattle.network_laws.specs.LegalLaws.{LegalLaw, MomentLaw, PlainLaw};
ghost use Rattle.network_laws.specs.PickedLaws.{ChosenLaw, EnabledLaw, EventLaw, NoneLaw, PickedLaw, ShortLaw};
ghost use Rattle.network_laws.specs.PlannedLaws.{FusedRuns, FusedSettled, PlanRegionLaw, RunsHold, RunsLegal, RunsObey, RunsSettled};
ghost use Rattle.network_laws.specs.SchemaLaws.{RunsProper};
ghost use Rattle.network_laws.specs.Propers.{JoinedProper, LegalProper, StreamProper};
ghost use Rattle.network_laws.specs.RegionLaws.{DoneRegionLaw, HoldsLaw, LegalRegionLaw, RegionMomentLaw};

/// What went over the links of a network that has come to its end is a front of the streams of the meaning, and
/// what its chains gave a front of what their last operators give. No element owes more packets on a link than it carries.
pub fn joined_law()
    ensures links { JoinedLaw }
    ensures gives { JoinedGivesLaw }
    ensures carried { CarriedLaw }
    ensures poured { PouredLaw }
{}

/// At any moment, what went over a link is a front of its flow, and in settled lists all of it, in every network
/// whose links carry what the elements at both ends say, with regions or without.
pub fn flow_law()
    ensures progress { ProgressFlowLaw }
    ensures settled { SettledFlowLaw }
    ensures joined { JoinedAreInProgress }
    ensures legal { LegalAreInProgress }
    ensures ends { LegalJoins }
{}

/// Where no element was cut, it is all of them, and the records are whole.
pub fn settled_law()
    ensures links { SettledLaw }
    ensures gives { SettledGivesLaw }
    ensures whole { WholeLaw }
    ensures meets { MeetLaw }
    ensures flows { FlowLaw }
{}

/// A legal list of events in which every element is done has joined lists.
pub fn legal_law()
    ensures joined { LegalLaw }
    ensures plain { PlainLaw }
    ensures moment { MomentLaw }
{}

/// The enabled events by their numbers; and what is picked by draws is a legal list of events, which is shorter than asked
/// only where no event is enabled behind it.
pub fn picked_law()
    ensures enabled { EnabledLaw }
    ensures chosen { ChosenLaw }
    ensures event { EventLaw }
    ensures none { NoneLaw }
    ensures picked { PickedLaw }
    ensures short { ShortLaw }
{}

/// A region of which the region law holds, holds in every network that runs its graph. At each moment what left it is a
/// front of what its chain gives for what entered it, and all of that where its elements are done.
pub fn regions_law()
    ensures holds { HoldsLaw }
    ensures moment { RegionMomentLaw }
    ensures legal { LegalRegionLaw }
    ensures done { DoneRegionLaw }
{}

/// What a link carries in the meaning is proper for the schema that its stream has, channels of regions too. Where what a
/// link carries is proper, so is what goes over it.
pub fn proper_law()
    ensures stream { StreamProper }
    ensures runs { RunsProper }
    ensures joined { JoinedProper }
    ensures legal { LegalProper }
{}

/// In a network that runs a checked program by its plan, the regions obey the region law. So at every width what goes over
/// the links of settled lists is what the program means on one thread; and the network into which a program is fused runs
/// it, so that this asks for nothing else of it.
pub fn planned_law()
    ensures runs { FusedRuns }
    ensures regions { PlanRegionLaw }
    ensures obey { RunsObey }
    ensures hold { RunsHold }
    ensures settled { RunsSettled }
    ensures legal { RunsLegal }
    ensures fused { FusedSettled }
{}

/// The counts of a run are those of the graph where no region runs in replicas. Where one does, they are how many items
/// went from its splitter to each channel.
pub fn counts_law()
    ensures plain { PlainCounts }
    ensures channels { ChannelCounts }
{}

/// Where every chain has taken its events in the meaning, and every splitter, replica and merger all that is owed to it, it
/// is determined what each link carries: its flow where each merger gives all of its region's stream, and else a front. What
/// its sender owes on it at any moment is a front of what it carries, and in settled lists all of that went over it.
pub fn carried_law()
    ensures there { CarriedThere }
    ensures once { CarriedOnce }
    ensures flows { FlowsCarried }
    ensures front { CarriedFront }
    ensures progress { CarriedProgress }
    ensures settled { SettledCarried }
{}
