//! A law about messages. The function does nothing: its contract is its law.

ghost use Rattle.std.specs.Prelude.{◌≡◌, ℕ, List, Some};
ghost use Rattle.std.specs.Fmt.{◌++?◌};
ghost use Rattle.reqs_io_faults.specs.FaultText.{fault_text};
ghost use Rattle.reqs_io_faults.specs.declared.fault.Input.{Input};
ghost use Rattle.reqs_io_faults.specs.declared.fault.RunFault.{RunFault};
ghost use Rattle.reqs_json.specs.Faults.{message_of, place_text};

/// The text of a fault is its place followed by its message.
pub fn a_text_is_the_message_behind_a_place()
    ensures { (said : Input → List ℕ) (fault : RunFault) →
        fault_text said fault ≡ (Some (place_text said fault) ++? message_of fault) }
{}
