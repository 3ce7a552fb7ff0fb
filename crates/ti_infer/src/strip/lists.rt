// Removes `single` from each element of a list.
ghost use Rattle.ti_lang.specs.Mirrors.Copies.{AreSame};

/// A value from which the keyword `single` can be removed in place.
pub trait Stripped {
    /// Whether the second value is the first without the keyword.
    ghost plain: { Self → Self → Type 0 };

    /// Removes the keyword.
    fn strip(&mut self)
        ensures { plain self.old self.new };
}

/// Removes the keyword from each element.
pub fn strip_each<T: Stripped>(items: &mut Vec<T>)
    ensures { AreSame T.plain items.old.items items.new.items }
{
    for i in 0..items.len() {
        items[i].strip();
    }
}
