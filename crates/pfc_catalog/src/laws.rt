// What a change of one file leaves of the others.
ghost use Rattle.std.specs.Prelude.{◌≡◌, ◌+◌, ℕ, List, Some, if◌then◌else◌, sum_by};
ghost use Rattle.pfc_catalog.specs.declared.entry.Entry.{Entry};
ghost use Rattle.pfc_catalog.specs.Files.{same_path, entry_at};
ghost use Rattle.pfc_catalog.specs.Catalog.{put, weight};

/// A file that is put is found at its path, and at each other path what was found before. Any sum over the files changes
/// by that file alone.
pub fn a_put_changes_one_file()
    ensures found { (files : List (List ℕ × Entry)) (path q : List ℕ) (e : Entry) →
        entry_at q (put path e files) ≡ (if same_path path q then Some e else entry_at q files) }
    ensures sums { (w : Entry → ℕ) (files : List (List ℕ × Entry)) (path : List ℕ) (e : Entry) →
        sum_by (λ f. w f.1) (put path e files) + weight w (entry_at path files) ≡ sum_by (λ f. w f.1) files + w e }
{}
