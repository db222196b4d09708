//! Laws of places, each as the contract of a call that does nothing.

ghost use Rattle.au_places.specs.Laws.{PlacesCount, PlacesSplit, WritesAreApart, WritesStand};

/// Each place counts once for itself, and is its parts, one by one, and what is left.
pub fn places_count()
    ensures counts { PlacesCount }
    ensures splits { PlacesSplit }
{}

/// What is written at a place stands there, and leaves each place that is apart as it was.
pub fn writes_are_apart<T>()
    ensures stand { WritesStand T }
    ensures apart { WritesAreApart T }
{}
