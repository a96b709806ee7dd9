//! Laws of the definitions alone.

ghost use Rattle.std.specs.Prelude.{◌≡◌, ◌≢◌, ◌∷◌, ◌++◌, [], ℕ, All, IsTrue, List};
ghost use Rattle.std.specs.List.{flat_map, list_all};
ghost use Rattle.mb_mbap.specs.declared.frame.Frame.{Frame};
ghost use Rattle.mb_map.specs.declared.step.Step.{Step};
ghost use Rattle.mb_map.specs.declared.step.Step.TheVariants as step;
ghost use Rattle.mb_map.specs.Device.{DeviceStep};
ghost use Rattle.mb_map.specs.Queue.{is_sound};
ghost use Rattle.mb_map.specs.Schedule.{AllLeave, Call, Devices, Simulated, StandsFor, sent};
ghost use Rattle.mb_map.specs.Schedule.Call.{Rest};
ghost use Rattle.mb_map.specs.Tables.{Tables};

/// A device's tables and the bytes of a request determine its reply and its tables afterwards.
pub fn one_step()
    ensures { (before : Tables) (asked a b : List ℕ) (s t : Tables) → DeviceStep before asked a s → DeviceStep before asked b t → (a ≡ b) × (s ≡ t) }
{
    mb_pdu::laws::one_value();
    mb_pdu::laws::one_spelling();
}

/// Devices, a script and a list of calls determine what a simulator gave at each call, and what
/// it holds afterwards.
pub fn one_schedule()
    ensures { (devices : Devices) (script : List Step) (calls : List Call) (a b : List (List Frame)) (s t : Simulated) → StandsFor devices script calls a s → StandsFor devices script calls b t → (a ≡ b) × (s ≡ t) }
{
    one_step();
}

/// Under a script without `Drop` each reply has left once a rest ends the calls, with its frame, with
/// a later one or with a rest: all that left are the replies to all frames, and once more those to the
/// frames of `Twice`, in some order.
pub fn all_leave()
    ensures { (devices : Devices) (script : List Step) (calls : List Call) (answers : List (List Frame)) (sim : Simulated)
        → IsTrue (list_all is_sound script) → All (λ s. s ≢ step.Drop) script
        → (stood : StandsFor devices script (calls ++ Rest ∷ []) answers sim)
        → AllLeave (sent script stood.outcomes) (flat_map (λ (given : List Frame). given) answers) }
{}
