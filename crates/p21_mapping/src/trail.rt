//! Where in a record its check stops. The way is noted while the refusal is handed up, from the value to the record, so that a
//! record that isn't refused costs nothing.
ghost use Rattle.std.specs.Prelude.{◌≡◌};

use p21_express_graph::Place;
use p21_grammar_tree::CheckFault;
use p21_mapping_values::Value;

/// The most steps of a way: a part, a parameter, and the 64 lists and typed parameters that may stand in one another.
const MOST_STEPS: usize = 66;

/// The way from a record down to the value in it that is refused.
#[derive(Drop)]
pub struct Trail {
    // From the value up.
    steps: [usize; MOST_STEPS],
    count: usize,
    attribute: Option<Place>,
}

impl Trail {
    /// A trail that leads nowhere. It takes no memory.
    pub fn new() -> Trail {
        Trail {
            steps: [0; MOST_STEPS],
            count: 0,
            attribute: None,
        }
    }

    /// The steps from the value up to the record: the numbers of the elements of the lists around it, where the value of a
    /// typed parameter is its element 0; the number of the parameter; and that of the part. All are counted from 0. Where a
    /// part is refused as a whole, its number stands alone, and where a parameter is missing, the number is that of the one
    /// behind the last. There are none where nothing is refused. It takes no memory.
    pub fn steps(&self) -> &[usize] {
        self.steps.get(..self.count).unwrap_or(&[])
    }

    /// The attribute whose value is refused, if it is one. It takes no memory.
    pub fn attribute(&self) -> Option<Place> {
        self.attribute
    }

    /// Leads nowhere again. It takes no memory.
    pub fn clear(&mut self) {
        self.count = 0;
        self.attribute = None;
    }

    /// Notes the attribute at which the value stands.
    pub(crate) fn note_attribute(&mut self, place: Place) {
        self.attribute = Some(place);
    }

    /// Notes the parameter of a part, of which so many have so many left behind it.
    pub(crate) fn note_parameter(&mut self, part: usize, count: usize, left: usize) {
        self.note_value(part, count.saturating_sub(left).saturating_sub(1));
    }

    /// Notes the parameter of a part.
    pub(crate) fn note_value(&mut self, part: usize, parameter: usize) {
        self.note(parameter);
        self.note(part);
    }

    /// Notes an element of a list.
    pub(crate) fn note_element(&mut self, element: usize) {
        self.note(element);
    }

    /// Notes a part.
    pub(crate) fn note_part(&mut self, part: usize) {
        self.note(part);
    }

    fn note(&mut self, step: usize) {
        if let Some(slot) = self.steps.get_mut(self.count) {
            *slot = step;
            self.count = self.count.saturating_add(1);
        }
    }
}

/// What is found of the element of this number, which is noted where it is refused.
#[inline(always)]
pub(crate) fn noted(
    found: Result<Value, CheckFault>,
    trail: &mut Trail,
    element: usize,
) -> Result<Value, CheckFault>
    ensures { result ≡ found }
{
    if found.is_err() {
        trail.note_element(element);
    }
    found
}
