//! How loaned messages of the sliced family are written by parts.
#![tactic(auto, using(rr_ports::proofs::Frames::callers), unfolding(rr_ports::specs::Facts::Keeps))]

ghost use Rattle.std.specs.Prelude.{◌≡◌, ◌∷◌, [], IfErr, IfOk};
ghost use Rattle.rr_shared_ports.specs.Words.{Keeps, Names, empty_hub, with_changed, with_complete_request, with_complete_response, with_element, with_request_content, with_response_content, MakesCall, Pushes, RequestIsComplete, WritesSlice, ResponseIsComplete};
ghost use Rattle.rr_protocol.specs.declared.kind.Kind.TheVariants as kind;

use crate::{Claimed, Header, Naming, Seat, SharedPorts, WriteError};
use rr_ports::{
    BackpressureFn, Body, Hub, Refused, RequestMut, RequestMutUninit, ResponseMut,
    ResponseMutUninit, SliceBody,
};
use std::sync::Wait;

impl<N: Naming, T: Drop> Claimed<N, RequestMutUninit<SliceBody<T>>> {
    /// Appends an element to the payload. After `RequestMutUninit::push` of `rr_ports`, whose condition this call
    /// tests.
    ///
    /// # Errors
    ///
    /// Returns the element if the payload is complete already.
    pub fn push<QH: Header, PB: Body, PH: Header, K: BackpressureFn>(
        &self,
        hub: &SharedPorts<N, Hub<SliceBody<T>, QH, PB, PH, K>>,
        rt: &impl Wait,
        seat: &mut Seat<N, Hub<SliceBody<T>, QH, PB, PH, K>>,
        element: T,
    ) -> Result<(), T>
        ensures { MakesCall (empty_hub N.limits N.node_id)
            (λ before after. Pushes RequestIsComplete
            (λ s n x. with_changed s n (with_request_content (with_element x))) before self.now element result after)
            seat.old seat.new }
    {
        let handle = self.handle();
        hub.rewritten(
            rt,
            seat,
            self,
            |ports| -> Result<(), T>
                requires { Names ports.old handle.now kind.RequestMutUninit }
                ensures call { Pushes RequestIsComplete (λ s n x.
                    with_changed s n (with_request_content (with_element x))) ports.old handle.entry.now element
                    result ports.new }
                ensures keeps { Keeps (handle.entry.now ∷ []) ports.old ports.new }
                ensures kind { Names ports.new handle.entry.now kind.RequestMutUninit }
            {
                if handle.is_complete(ports) {
                    return Err(element);
                }
                handle.push(ports, element);
                Ok(())
            },
        )
    }
}

impl<N: Naming, T: Copy> Claimed<N, RequestMutUninit<SliceBody<T>>> {
    /// Copies these elements into the payload, and makes the request ready to send. Elements that were written before
    /// are dropped. After `RequestMutUninit::write_from_slice` of `rr_ports`, whose condition this call tests.
    ///
    /// # Errors
    ///
    /// - `WrongLength` if they are not as many as were loaned. `message` is the request.
    pub fn write_from_slice<QH: Header, PB: Body, PH: Header, K: BackpressureFn>(
        self,
        hub: &SharedPorts<N, Hub<SliceBody<T>, QH, PB, PH, K>>,
        rt: &impl Wait,
        seat: &mut Seat<N, Hub<SliceBody<T>, QH, PB, PH, K>>,
        elements: &[T],
    ) -> Result<
        Claimed<N, RequestMut<SliceBody<T>>>,
        Refused<Claimed<N, RequestMutUninit<SliceBody<T>>>, WriteError>,
    >
        ensures { MakesCall (empty_hub N.limits N.node_id)
            (λ before after. WritesSlice with_complete_request before self elements.now result after) seat.old
            seat.new }
    {
        hub.tried(
            rt,
            seat,
            self,
            &[],
            |handle, ports| -> Result<
                RequestMut<SliceBody<T>>,
                Refused<RequestMutUninit<SliceBody<T>>, WriteError>,
            >
                requires { Names ports.old handle kind.RequestMutUninit }
                ensures call { WritesSlice with_complete_request ports.old handle elements.entry.now result ports.new }
                ensures keeps { Keeps (handle ∷ []) ports.old ports.new }
                ensures made { IfOk result (λ made. (made ≡ handle) × Names ports.new handle kind.RequestMut) }
                ensures kept { IfErr result (λ refused. (refused.message ≡ handle)
                    × Names ports.new handle kind.RequestMutUninit) }
            {
                if handle.asked_len(ports) == elements.len() {
                    Ok(handle.write_from_slice(ports, elements))
                } else {
                    Err(Refused {
                        message: handle,
                        error: WriteError::WrongLength,
                    })
                }
            },
        )
    }
}

impl<N: Naming, T: Drop> Claimed<N, ResponseMutUninit<SliceBody<T>>> {
    /// Appends an element to the payload. After `ResponseMutUninit::push` of `rr_ports`, whose condition this call
    /// tests.
    ///
    /// # Errors
    ///
    /// Returns the element if the payload is complete already.
    pub fn push<QB: Body, QH: Header, PH: Header, K: BackpressureFn>(
        &self,
        hub: &SharedPorts<N, Hub<QB, QH, SliceBody<T>, PH, K>>,
        rt: &impl Wait,
        seat: &mut Seat<N, Hub<QB, QH, SliceBody<T>, PH, K>>,
        element: T,
    ) -> Result<(), T>
        ensures { MakesCall (empty_hub N.limits N.node_id)
            (λ before after. Pushes ResponseIsComplete
            (λ s n x. with_changed s n (with_response_content (with_element x))) before self.now element result after)
            seat.old seat.new }
    {
        let handle = self.handle();
        hub.rewritten(
            rt,
            seat,
            self,
            |ports| -> Result<(), T>
                requires { Names ports.old handle.now kind.ResponseMutUninit }
                ensures call { Pushes ResponseIsComplete (λ s n x.
                    with_changed s n (with_response_content (with_element x))) ports.old handle.entry.now element
                    result ports.new }
                ensures keeps { Keeps (handle.entry.now ∷ []) ports.old ports.new }
                ensures kind { Names ports.new handle.entry.now kind.ResponseMutUninit }
            {
                if handle.is_complete(ports) {
                    return Err(element);
                }
                handle.push(ports, element);
                Ok(())
            },
        )
    }
}

impl<N: Naming, T: Copy> Claimed<N, ResponseMutUninit<SliceBody<T>>> {
    /// Copies these elements into the payload, and makes the response ready to send. Elements that were written
    /// before are dropped. After `ResponseMutUninit::write_from_slice` of `rr_ports`, whose condition this call
    /// tests.
    ///
    /// # Errors
    ///
    /// - `WrongLength` if they are not as many as were loaned. `message` is the response.
    pub fn write_from_slice<QB: Body, QH: Header, PH: Header, K: BackpressureFn>(
        self,
        hub: &SharedPorts<N, Hub<QB, QH, SliceBody<T>, PH, K>>,
        rt: &impl Wait,
        seat: &mut Seat<N, Hub<QB, QH, SliceBody<T>, PH, K>>,
        elements: &[T],
    ) -> Result<
        Claimed<N, ResponseMut<SliceBody<T>>>,
        Refused<Claimed<N, ResponseMutUninit<SliceBody<T>>>, WriteError>,
    >
        ensures { MakesCall (empty_hub N.limits N.node_id)
            (λ before after. WritesSlice with_complete_response before self elements.now result after) seat.old
            seat.new }
    {
        hub.tried(
            rt,
            seat,
            self,
            &[],
            |handle, ports| -> Result<
                ResponseMut<SliceBody<T>>,
                Refused<ResponseMutUninit<SliceBody<T>>, WriteError>,
            >
                requires { Names ports.old handle kind.ResponseMutUninit }
                ensures call { WritesSlice with_complete_response ports.old handle elements.entry.now result ports.new }
                ensures keeps { Keeps (handle ∷ []) ports.old ports.new }
                ensures made { IfOk result (λ made. (made ≡ handle) × Names ports.new handle kind.ResponseMut) }
                ensures kept { IfErr result (λ refused. (refused.message ≡ handle)
                    × Names ports.new handle kind.ResponseMutUninit) }
            {
                if handle.asked_len(ports) == elements.len() {
                    Ok(handle.write_from_slice(ports, elements))
                } else {
                    Err(Refused {
                        message: handle,
                        error: WriteError::WrongLength,
                    })
                }
            },
        )
    }
}
