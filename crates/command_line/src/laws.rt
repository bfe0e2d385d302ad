//! What is true of the words of command lines.
ghost use Rattle.std.specs.Prelude.{◌≡◌, [], ◌∷◌, true, false, codes};
ghost use Rattle.command_line.specs.Request.{requested};
ghost use Rattle.command_line.specs.RequestLaws.{TwoFormsLaw, AnyOrderLaw};
ghost use Rattle.command_line.specs.declared.request.Request.TheVariants as Request;

/// The requests of some words.
pub fn request_on_literals()
    ensures program_alone { requested (codes "run" ∷ codes "p.spl" ∷ [])
        ≡ Some (Request.Run (codes "p.spl")
        (record { width = None; workers = None; capacity = None; arrivals = None; counts = false })) }
    ensures all_options { requested (codes "run" ∷ codes "--counts" ∷ codes "--width=16"
        ∷ codes "p.spl" ∷ codes "--workers" ∷ codes "64" ∷ codes "--arrivals=a=b"
        ∷ codes "--capacity" ∷ codes "18" ∷ [])
        ≡ Some (Request.Run (codes "p.spl")
        (record {
          width = Some 16;
          workers = Some 64;
          capacity = Some 18;
          arrivals = Some (codes "a=b");
          counts = true;
        })) }
    ensures steps_left_out { requested (codes "simulate" ∷ codes "p.spl" ∷ codes "--width=2"
        ∷ codes "--schedule" ∷ codes "0" ∷ [])
        ≡ Some (Request.Simulate (codes "p.spl") 2 0 10000000) }
    ensures rows_made { requested (codes "make" ∷ codes "m.csv" ∷ codes "--rows" ∷ codes "2"
        ∷ codes "--start" ∷ codes "0" ∷ [])
        ≡ Some (Request.Make (codes "m.csv") 2 0) }

    ensures nothing { requested [] ≡ None }
    ensures no_file { requested (codes "check" ∷ []) ≡ None }
    ensures two_files { requested (codes "check" ∷ codes "p.spl" ∷ codes "q.spl" ∷ []) ≡ None }
    ensures too_wide { requested (codes "run" ∷ codes "p.spl" ∷ codes "--width" ∷ codes "17" ∷ [])
        ≡ None }
    ensures leading_zero { requested (codes "run" ∷ codes "p.spl" ∷ codes "--width" ∷ codes "04"
        ∷ []) ≡ None }
    ensures twice { requested (codes "run" ∷ codes "p.spl" ∷ codes "--width=4" ∷ codes "--width"
        ∷ codes "4" ∷ []) ≡ None }
    ensures of_another_command { requested (codes "check" ∷ codes "p.spl" ∷ codes "--width=4" ∷ [])
        ≡ None }
    ensures flag_with_value { requested (codes "run" ∷ codes "p.spl" ∷ codes "--counts=" ∷ [])
        ≡ None }
    ensures arrivals_of_itself { requested (codes "replay" ∷ codes "p.spl" ∷ codes "--arrivals"
        ∷ codes "p.spl" ∷ []) ≡ None }
{}

/// An option with a value may be given in one word or in two, and the order of the arguments after
/// the command doesn't matter.
pub fn request_law()
    ensures two_forms { TwoFormsLaw }
    ensures any_order { AnyOrderLaw }
{}
