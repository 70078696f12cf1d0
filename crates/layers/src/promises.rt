// What a new layer promises of all calls to come. These functions do nothing: a layer's making passes their contracts on.
ghost use Rattle.source.specs.Calls.{Lasts, PaysOnce};
ghost use Rattle.source.specs.Records.{blank};
ghost use Rattle.layers.specs.Layers.{remembering, limited, Bounded};

use source::Source;

pub(crate) fn remembers<S: Source>(below: &S)
    ensures lasts { Lasts (remembering (S.meaning below.now) blank) }
    ensures once { PaysOnce (remembering (S.meaning below.now) blank) }
{}

pub(crate) fn limits<S: Source>(below: &S, number: u32)
    ensures lasts { Lasts (limited (S.meaning below.now) number) }
    ensures bounded { Bounded (S.meaning below.now) number }
{}
