//! Copies of what situations are made of.

use crate::frame::{Binding, Place, Slot};
use crate::situation::{Element, Holding, InteractionPoint, Item, Row};
use est_syntax::est_items::Twin;
use std::alloc::{AllocError, Global};

impl Twin for Place {
    fn twin(&self, alloc: Global) -> Result<Place, AllocError> {
        Ok(Place {
            holder: self.holder,
            declared: self.declared,
            path: self.path.twin(alloc)?,
        })
    }
}

impl Twin for Slot {
    fn twin(&self, alloc: Global) -> Result<Slot, AllocError> {
        match self {
            Slot::Value(value) => {
                let value = value.twin(alloc)?;
                Ok(Slot::Value(value))
            }
            Slot::Place(place) => {
                let place = place.twin(alloc)?;
                Ok(Slot::Place(place))
            }
            Slot::Instance(number) => Ok(Slot::Instance(*number)),
        }
    }
}

impl Twin for Binding {
    fn twin(&self, alloc: Global) -> Result<Binding, AllocError> {
        Ok(Binding {
            declared: self.declared,
            slot: self.slot.twin(alloc)?,
        })
    }
}

impl Twin for InteractionPoint {
    fn twin(&self, alloc: Global) -> Result<InteractionPoint, AllocError> {
        Ok(InteractionPoint {
            instance: self.instance,
            declared: self.declared,
            index: self.index.twin(alloc)?,
        })
    }
}

impl Twin for Item {
    fn twin(&self, alloc: Global) -> Result<Item, AllocError> {
        let at = self.at.twin(alloc)?;
        let values = self.values.twin(alloc)?;
        Ok(Item {
            at,
            signal: self.signal,
            values,
        })
    }
}

impl Twin for Element {
    fn twin(&self, alloc: Global) -> Result<Element, AllocError> {
        Ok(Element {
            declared: self.declared,
            index: self.index.twin(alloc)?,
        })
    }
}

impl Twin for Holding {
    fn twin(&self, alloc: Global) -> Result<Holding, AllocError> {
        Ok(Holding {
            element: self.element.twin(alloc)?,
            number: self.number,
        })
    }
}

impl Twin for Row {
    fn twin(&self, alloc: Global) -> Result<Row, AllocError> {
        let variables = self.variables.twin(alloc)?;
        let children = self.children.twin(alloc)?;
        Ok(Row {
            number: self.number,
            parent: self.parent,
            body: self.body,
            state: self.state,
            variables,
            children,
        })
    }
}
