//! The theorems of the detector, each on a public function: of one epoch, and of all epochs together.

ghost use Rattle.std.specs.Prelude.{◌≡◌, ◌≢◌};
ghost use Rattle.tp_process.specs.Epochs.{AheadLaw, CallsLaw, ControlMessagesEpochLaw, EpochLaw, FewWavesEpochLaw, GoesOnEpochLaw, LagsLaw};
ghost use Rattle.tp_process.specs.Epochs.{LeftEpochLaw, MessageLaw, NearLaw, NeverEarlyEpochLaw, NoneLateLaw, OnceEpochLaw, SoonEpochLaw};
ghost use Rattle.tp_process.specs.Network.{AllEndLaw, FewCarriedLaw, HandedLaw, NeverLateLaw};
ghost use Rattle.tp_process.specs.Opening.{CountedLaw, OpenCallsLaw, OpenLaw};
ghost use Rattle.tp_process.specs.World.{ControlMessagesLaw, EndedLaw, FewWavesLaw, GoesOnLaw, NeverEarlyLaw, OnceLaw, QuietLaw, SoonLaw};

use crate::epoch_state::LIMIT;
use crate::process::MARK;

/// The limit of work and of messages has this value, and memory of zeros is no open process.
pub fn limits_are_these()
    ensures limit { LIMIT ≡ 8796093022208 }
    ensures zeros { MARK ≢ 0 }
{}

/// Safety: if a process knows the end, or `next` returns `Ended`, no process has work and no message is under way,
/// whatever the processes do and whichever control messages come, in whatever order.
#[tactic(auto, using(crate::proofs::Network::never_early, crate::proofs::Network::ended))]
pub fn never_early()
    ensures known { NeverEarlyLaw }
    ensures ended { EndedLaw }
{}

/// Termination is stable: nothing begins again without a message or open work.
#[tactic(auto, using(crate::proofs::Network::quiet_stays))]
pub fn quiet_stays()
    ensures { QuietLaw }
{}

/// After termination process 0 starts at most two more waves.
#[tactic(auto, using(crate::proofs::Network::few_waves))]
pub fn few_waves()
    ensures { FewWavesLaw }
{}

/// Liveness: after termination at most 14n - 11 events of n processes are useful; one is possible until all processes know
/// the end; and a control message that has come need not come again.
#[tactic(auto, using(crate::proofs::Network::soon, crate::proofs::Network::goes_on, crate::proofs::Network::once))]
pub fn never_silent()
    ensures soon { SoonLaw }
    ensures goes_on { GoesOnLaw }
    ensures once { OnceLaw }
{}

/// A wave costs two control messages for each process except process 0, and the end costs one.
#[tactic(auto, using(crate::proofs::Network::few_control_messages))]
pub fn few_control_messages()
    ensures { ControlMessagesLaw }
{}

/// Each epoch is a run of its own, whatever happens in the others; and the model's events are the calls of `Process`.
#[tactic(auto, using(crate::proofs::Network::calls))]
pub fn each_epoch()
    ensures epochs { EpochLaw }
    ensures calls { CallsLaw }
{}

/// Every process that `new` returned stays open, so no call on it is refused as `NotOpen`; nor is `next` refused.
#[tactic(auto, using(crate::proofs::Network::stays_open, crate::proofs::Network::open_calls))]
pub fn stays_open()
    ensures marked { OpenLaw }
    ensures calls { OpenCallsLaw }
{}

/// No call of `next` is refused as `Miscounted` if each message that is received was counted as sent before.
#[tactic(auto, using(crate::proofs::Network::never_miscounted))]
pub fn never_miscounted()
    ensures { CountedLaw }
{}

/// Safety in every epoch: if a process knows the end of an epoch, or has left the epoch, nothing of it is left.
#[tactic(auto, using(crate::proofs::Network::never_early_epoch, crate::proofs::Network::left_epoch, crate::proofs::Network::none_late))]
pub fn never_early_each()
    ensures known { NeverEarlyEpochLaw }
    ensures left { LeftEpochLaw }
    ensures none_late { NoneLateLaw }
{}

/// The epochs of two processes differ by at most one, and what comes to a process is of its epoch or of the next.
#[tactic(auto, using(crate::proofs::Network::near, crate::proofs::Network::messages, crate::proofs::Network::ahead))]
pub fn near_epochs()
    ensures near { NearLaw }
    ensures messages { MessageLaw }
    ensures ahead { AheadLaw }
{}

/// Liveness in every epoch: after its termination, a useful event of it is possible until all processes in it can
/// reopen.
#[tactic(auto, using(crate::proofs::Network::in_each_epoch))]
pub fn goes_on_each()
    ensures goes_on { GoesOnEpochLaw }
    ensures lags { LagsLaw }
    ensures soon { SoonEpochLaw }
    ensures once { OnceEpochLaw }
{}

/// An epoch has no more waves and control messages than a run of one epoch.
#[tactic(auto, using(crate::proofs::Network::few_waves_epoch, crate::proofs::Network::few_control_messages_epoch))]
pub fn few_each()
    ensures waves { FewWavesEpochLaw }
    ensures controls { ControlMessagesEpochLaw }
{}

/// Liveness of all epochs together, over a network that brings each control message once, in any order: if nothing is
/// left to do, all processes have come to the last epoch and know its end.
#[tactic(auto, using(crate::proofs::Network::all_end, crate::proofs::Network::handed_law))]
pub fn all_end()
    ensures ends { AllEndLaw }
    ensures handed { HandedLaw }
{}

/// Over a network that brings each control message once, in any order, no control message is refused as `Late`.
#[tactic(auto, using(crate::proofs::Network::never_late))]
pub fn never_late()
    ensures { NeverLateLaw }
{}

/// Over such a network, at most two control messages of an epoch are on their way to a process, or kept by it until it
/// reopens.
#[tactic(auto, using(crate::proofs::Network::few_carried))]
pub fn few_carried()
    ensures { FewCarriedLaw }
{}
