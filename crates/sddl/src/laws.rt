//! What writing and reading have to do with each other.
ghost use Rattle.sec_desc.specs.Writing.{IsValue, IsWritable};
ghost use Rattle.sec_desc.specs.declared.value.Descriptor.{Descriptor};
ghost use Rattle.sddl.specs.Laws.{HasText, IsReadBack};

/// The text of a descriptor is read as the same descriptor. It does nothing.
pub fn written_is_read()
    ensures { (d : Descriptor) → IsWritable d → IsValue d → HasText d → IsReadBack d }
{}
