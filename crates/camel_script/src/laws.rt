ghost use Rattle.std.specs.Prelude.{◌≡◌, ℕ, Err, List};
ghost use Rattle.camel_script.specs.Record.{reading_of, IsAtRefusedItem, IsReadInsert};
ghost use Rattle.camel_script.specs.declared.mistake.Mistake.{Mistake};

/// A law of the definitions: if the IMSI and the items of an insert can be read, and it has a mistake, a list that its
/// items make is refused, and the mistake is at the item with which that list is first refused. It does nothing when it
/// is called.
pub fn refused_list_names_item()
    ensures place { (fields : List (List ℕ)) (mistake : Mistake) → IsReadInsert fields
        → reading_of fields ≡ Err mistake → IsAtRefusedItem fields mistake }
{}
