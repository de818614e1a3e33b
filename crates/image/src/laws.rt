ghost use Rattle.image.specs.Theorems.{AcceptedExactly, FirstIsNamed, OneVerdict};

/// Bytes are accepted exactly if nothing stands against their records and their rows are well-formed, and there is one verdict
/// on any bytes. Of records and of value rows the first that something stands against is named.
pub fn image_stands()
    ensures exact { AcceptedExactly }
    ensures one { OneVerdict }
    ensures first { FirstIsNamed }
{}
