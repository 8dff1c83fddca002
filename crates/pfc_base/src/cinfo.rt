ghost use Rattle.std.specs.Prelude.{◌≡◌, List, ℕ};
ghost use Rattle.pfc_base.specs.Cinfo.{Cinfo, IsCinfo, cinfo_in};

/// Bytes say one thing at most. This does nothing: its contract is the law that a reader of cinfo files rests on.
pub fn cinfo_says_one_thing()
    ensures only { (bytes : List ℕ) (c : Cinfo) → IsCinfo bytes c → c ≡ cinfo_in bytes }
    ensures unique { (bytes : List ℕ) (c d : Cinfo) → IsCinfo bytes c → IsCinfo bytes d → c ≡ d }
{}
