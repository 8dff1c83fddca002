ghost use Rattle.std.specs.Prelude.{◌≡◌, ◌+◌, ℕ, Bool, List, count_by};
ghost use Rattle.pfc_world.specs.Counts.{RoseBy, Stayed};
ghost use Rattle.pfc_world.specs.Files.{Files};
ghost use Rattle.pfc_client.specs.declared.reply.Reply.{Reply};
ghost use Rattle.pfc_client.specs.Permitted.{ArePermitted, ArePlain, is_memory};

/// A law: where the client's link had no fault and no reply is want of memory, the permitted replies are the plain ones.
pub fn without_faults_replies_are_plain()
    ensures { (told : Bool) (files : Files) (lines : List (List ℕ)) (replies : List Reply) (before after : ℕ) → ArePermitted told files lines replies before after → Stayed before after → count_by is_memory replies ≡ 0 → ArePlain told files lines replies }
{}
