//! Laws of what is tried.

ghost use Rattle.std.specs.Prelude.{◌≡◌, ℕ, List, Some};
ghost use Rattle.xpn_numbers.specs.declared.candidate.Tried.{Tried};
ghost use Rattle.xpn_numbers.specs.declared.form.Beginning.{Beginning};
ghost use Rattle.xpn_numbers.specs.declared.form.Form.{Form};
ghost use Rattle.xpn_numbers.specs.declared.place.Places.{Places};
ghost use Rattle.xpn_numbers.specs.Candidates.{candidates};
ghost use Rattle.xpn_numbers.specs.History.{Entry, places};
ghost use Rattle.xpn_numbers.specs.Missed.{HasSsci, IsBehind, IsIn, numbered};

/// Of a frame whose sender keeps its short SCI, and of which fewer than 2^32 were missed since the last
/// right one under the key, the true packet number of 64 bits is tried.
pub fn law_few_missed()
    ensures { (history : List Entry) (tried : Tried) (forms : List Form) (set : List Beginning)
        (last : Places) (form : Form) (salt : List ℕ) (number : ℕ)
        → places tried.key tried.sci history ≡ Some last → IsIn forms form
        → HasSsci form salt last.last.ssci → IsBehind tried last.last number
        → IsIn (candidates history tried forms set)
        (numbered tried form.clear salt last.last.ssci number) }
{}
