//! Laws on networks of which a slot is erased, and what was drawn by all that happened at it is taken off the budgets.

ghost use Rattle.live_host.specs.Erasing.{AllClosedSlotsAreErased, AllMachineEventsThereAreErased, ClosedSlotsAreErased, ErasedMachinesServeAllAlike, ErasedMachinesServeAlike, ErasedNetsRefuseAlike, ErasedNetsRefuseEventsAlike, ErasedNetsServeAlike, ErasedNetsStepAlike, EventsThereAreErased, MachineEventsThereAreErased, OthersDrawAsMuch, StepsThereAreErased};

/// A law: a step at another slot comes to the same, if there is room afterwards for what is yet drawn at the erased
/// one. One that is refused may be refused for another reason, and an opening may be done.
pub fn erased_nets_step_alike()
    ensures done { ErasedNetsStepAlike }
    ensures refused { ErasedNetsRefuseAlike }
{}

/// A law: a step at the slot changes nothing of what is left without it.
pub fn steps_there_are_erased()
    ensures { StepsThereAreErased }
{}

/// A law: an event at another slot comes to the same as such a step, with all that the others hear. One at the slot
/// changes nothing of what is left.
pub fn erased_nets_serve_alike()
    ensures done { ErasedNetsServeAlike }
    ensures refused { ErasedNetsRefuseEventsAlike }
    ensures there { EventsThereAreErased }
{}

/// A law: of networks as the host keeps them, an event at another slot comes to the same, if memory sufficed and there
/// is room afterwards. One at the slot changes nothing of what is left.
pub fn erased_machines_serve_alike()
    ensures elsewhere { ErasedMachinesServeAlike }
    ensures there { MachineEventsThereAreErased }
{}

/// A law: bytes of another slot that come to each node come to the same then, and those of the slot change nothing of
/// what is left.
pub fn erased_machines_serve_all_alike()
    ensures elsewhere { ErasedMachinesServeAllAlike }
    ensures there { AllMachineEventsThereAreErased }
{}

/// A law: the lines of slots that are closed at the end may be left out, if as much less is declared as they drew.
pub fn closed_slots_are_erased()
    ensures erased { ClosedSlotsAreErased }
    ensures all_erased { AllClosedSlotsAreErased }
    ensures others { OthersDrawAsMuch }
{}
